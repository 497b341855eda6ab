// The compression function: the schedule and the rounds of a block, at either width of the words.
ghost use Rattle.std.specs.Prelude.{◌≡◌, ℕ, ◌+◌, ◌-◌, ◌*◌, ◌/◌, ◌%◌, ◌^◌, ◌<◌, ◌≤◌, List, length, map, slice_index};
ghost use Rattle.hashes.specs.Widths.{Eight, in_order};
ghost use Rattle.hashes.specs.Padding.{word_bytes, block_bytes, words_at};
ghost use Rattle.hashes.specs.Compression.{mixed, T₁, T₂, round, summed, compressed, after_blocks};
ghost use Rattle.hashes.specs.Code.{words, first_words};
ghost use Rattle.hashes.specs.Progress.{Rounds, Leads};

use crate::word::Word;
use octets::numbers::Number;

// A hash value, or the working variables of the rounds.
#[derive(Clone, Copy)]
pub struct State<W> {
    pub a: W,
    pub b: W,
    pub c: W,
    pub d: W,
    pub e: W,
    pub f: W,
    pub g: W,
    pub h: W,
}

impl<W: Word> State<W> {
    // The first `n` words as bytes, and zeros; how many bytes the words are.
    pub fn put_words(self, out: &mut [u8; 64], n: usize) -> usize
        requires { n ≤ 8 }
        ensures out_after { out.new ≡ first_words W.width (words W.value self) n }
        ensures value { result ≡ n * word_bytes W.width }
    {
        octets::parts::fill(out, 0, 64, 0);
        for i in 0..n {
            self.word(i).put_big(out, i * W::BYTES);
        }
        n * W::BYTES
    }

    // An array of words would do, but one of a type parameter owes a proof of its size: no plainer.
    fn word(self, i: usize) -> W
        requires { i < 8 }
        ensures { W.value result ≡ slice_index (in_order (words W.value self)) i }
    {
        match i {
            0 => self.a,
            1 => self.b,
            2 => self.c,
            3 => self.d,
            4 => self.e,
            5 => self.f,
            6 => self.g,
            _ => self.h,
        }
    }

    // The constant and the word are added first: they wait for no other round.
    #[inline(always)]
    fn t1(self, k: W, w: W) -> W
        ensures { W.value result ≡ T₁ W.width (W.value k) (W.value w) (words W.value self) }
    {
        let x = self.h.plus(k.plus(w));
        let y = x.plus(self.e.choice(self.f, self.g));
        y.plus(self.e.big_sigma_1())
    }

    #[inline(always)]
    fn t2(self) -> W
        ensures { W.value result ≡ T₂ W.width (words W.value self) }
    {
        self.a.big_sigma_0().plus(self.a.majority(self.b, self.c))
    }

    #[inline(always)]
    #[tactic(auto, unfolding(crate::specs::Compression::round))]
    fn round(self, k: W, w: W) -> State<W>
        ensures { words W.value result ≡ round W.width (W.value k) (W.value w) (words W.value self) }
    {
        let t1 = self.t1(k, w);
        let t2 = self.t2();
        State {
            a: t1.plus(t2),
            b: self.a,
            c: self.b,
            d: self.c,
            e: self.d.plus(t1),
            f: self.e,
            g: self.f,
            h: self.g,
        }
    }

    // The working variables `self` added to the hash value `to`.
    #[inline(always)]
    #[tactic(auto, unfolding(crate::specs::Compression::summed))]
    fn plus(self, to: State<W>) -> State<W>
        ensures { words W.value result ≡ summed W.width (words W.value self) (words W.value to) }
    {
        State {
            a: self.a.plus(to.a),
            b: self.b.plus(to.b),
            c: self.c.plus(to.c),
            d: self.d.plus(to.d),
            e: self.e.plus(to.e),
            f: self.f.plus(to.f),
            g: self.g.plus(to.g),
            h: self.h.plus(to.h),
        }
    }
}

// The constants of the rounds, whose number is R.
#[derive(Drop)]
pub struct Constants<'a, W: Word, const R: usize> {
    pub k: &'a [W; R],
    ghost table: { map W.value k.now ≡ W.width.K },
    ghost length_known: { length k.now ≡ R },
    ghost rounds: { R ≡ W.width.rounds },
}

impl<W: Word, const R: usize> Constants<'_, W, R> {
    // The hash value with every whole block of `bytes` worked in. The schedule is written in `w`.
    #[inline(always)]
    pub fn blocks(&self, s: State<W>, bytes: &[u8], w: &mut [W; R]) -> State<W>
        ensures { words W.value result ≡ after_blocks W.width (words W.value s) bytes.now (length bytes.now / block_bytes W.width) }
    {
        let mut v = s;
        for block in bytes.chunks_exact(16 * W::BYTES) {
            v = self.block(v, block, w);
        }
        v
    }

    // The hash value with a block worked in.
    #[inline(always)]
    fn block(&self, s: State<W>, block: &[u8], w: &mut [W; R]) -> State<W>
        requires { length block.now ≡ block_bytes W.width }
        ensures { words W.value result ≡ compressed W.width (words W.value s) (words_at W.width block.now 0 16) }
    {
        load(w, block);
        let x = self.early_rounds(s, w);
        let y = self.late_rounds(x, w);
        y.plus(s)
    }

    // The rounds that a later word comes with.
    #[inline(always)]
    fn early_rounds(&self, s: State<W>, w: &mut [W; R]) -> State<W>
        ensures { Leads W.width 0 (words W.value s) (map W.value w.old) (W.width.rounds - 16) (words W.value result) (map W.value w.new) }
    {
        let mut v = s;
        for i in (0..R - 16).step_by(4) {
            v = self.early_four(v, w, i);
        }
        v
    }

    // Written as one with the early rounds, each round would test whether a word is to come.
    #[inline(always)]
    fn late_rounds(&self, s: State<W>, w: &[W; R]) -> State<W>
        ensures { Leads W.width (W.width.rounds - 16) (words W.value s) (map W.value w.now) W.width.rounds (words W.value result) (map W.value w.now) }
    {
        let mut v = s;
        for i in (R - 16..R).step_by(4) {
            v = self.late_four(v, w, i);
        }
        v
    }

    // Four rounds at once: the compiler then keeps the eight words where they are.
    #[inline(always)]
    fn early_four(&self, s: State<W>, w: &mut [W; R], i: usize) -> State<W>
        requires i_bound { i + 19 < W.width.rounds }
        ensures { Leads W.width i (words W.value s) (map W.value w.old) (i + 4) (words W.value result) (map W.value w.new) }
    {
        let x = self.early_round(s, w, i);
        let y = self.early_round(x, w, i + 1);
        let z = self.early_round(y, w, i + 2);
        self.early_round(z, w, i + 3)
    }

    // Round i, and the word that round i + 16 will want.
    #[inline(always)]
    fn early_round(&self, s: State<W>, w: &mut [W; R], i: usize) -> State<W>
        requires i_bound { i + 16 < W.width.rounds }
        ensures { Leads W.width i (words W.value s) (map W.value w.old) (i + 1) (words W.value result) (map W.value w.new) }
    {
        let r = s.round(self.k[i], w[i]);
        w[i + 16] = next_word(w[i + 14], w[i + 9], w[i + 1], w[i]);
        r
    }

    #[inline(always)]
    fn late_four(&self, s: State<W>, w: &[W; R], i: usize) -> State<W>
        requires le_i { (W.width.rounds ≤ i + 16) × (i + 3 < W.width.rounds) }
        ensures { Leads W.width i (words W.value s) (map W.value w.now) (i + 4) (words W.value result) (map W.value w.now) }
    {
        let x = self.late_round(s, w, i);
        let y = self.late_round(x, w, i + 1);
        let z = self.late_round(y, w, i + 2);
        self.late_round(z, w, i + 3)
    }

    // Round i, where every word is there.
    #[inline(always)]
    fn late_round(&self, s: State<W>, w: &[W; R], i: usize) -> State<W>
        requires le_i { (W.width.rounds ≤ i + 16) × (i < W.width.rounds) }
        ensures { Leads W.width i (words W.value s) (map W.value w.now) (i + 1) (words W.value result) (map W.value w.now) }
    {
        s.round(self.k[i], w[i])
    }
}

// The block's 16 words.
#[inline(always)]
fn load<W: Word, const R: usize>(w: &mut [W; R], block: &[u8])
    requires rounds { R ≡ W.width.rounds }
    requires length { length block.now ≡ block_bytes W.width }
    ensures { (H : Eight) → Rounds W.width H (words_at W.width block.now 0 16) 0 H (map W.value w.new) }
{
    for i in 0..16 {
        w[i] = W::big(block, i * W::BYTES);
    }
}

// The schedule's next word, of the words 2, 7, 15 and 16 before it.
#[inline(always)]
fn next_word<W: Word>(x: W, y: W, z: W, u: W) -> W
    ensures { W.value result ≡ mixed W.width (W.value x) (W.value y) (W.value z) (W.value u) }
{
    x.small_sigma_1().plus(y).plus(z.small_sigma_0()).plus(u)
}
