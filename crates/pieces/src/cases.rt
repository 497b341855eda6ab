// The files that are cut: a name, and the parts.
use crate::files::Part::{self, Byte, Check, Eight, Entry, Fill, Four, Header, Magic, Two, Write};

pub const FILES: [(&str, &[Part]); 16] = [
    // done
    // the first write runs on into the touching region, the second stores over its end
    (
        "writes",
        &[Magic, Write(0x100c), Write(0x1010), Entry(0x1000)],
    ),
    (
        "write-and-fill",
        &[
            Magic,
            Fill {
                address: 0x1006,
                count: 20,
                pattern: 0xaa,
            },
            Write(0x1008),
            Entry(0x3000),
        ],
    ),
    // an entry need not be RAM
    ("check", &[Magic, Check(0x30), Entry(0xfffffffffffff)]),
    (
        "skipped",
        &[
            Magic,
            Header(60000, 8),
            Eight(0),
            Header(65535, 0),
            Header(0, 8),
            Eight(0x2000),
            Entry(0x1000),
            Entry(0x1004),
        ],
    ),
    // refused by the file's size
    ("empty", &[]),
    ("short", &[Four(0x448cb65e), Two(0x5fa2), Byte(0xdc)]),
    ("magic-alone", &[Magic]),
    ("no-entry", &[Magic, Write(0x1008)]),
    (
        "cut-header",
        &[Magic, Write(0x1000), Entry(0x1000), Eight(2)],
    ),
    // by the magic, or a command's header
    ("no-magic", &[Eight(0x8adc5fa2448cb65f), Entry(0x1000)]),
    (
        "cut-data",
        &[
            Magic,
            Write(0x1000),
            Header(0, 100),
            Eight(0x1000),
            Eight(0),
        ],
    ),
    (
        "unknown",
        &[
            Magic,
            Fill {
                address: 0x3000,
                count: 16,
                pattern: 1,
            },
            Header(59999, 8),
            Eight(0),
        ],
    ),
    (
        "wrong-length",
        &[Magic, Entry(0x1000), Header(2, 9), Eight(0x1000), Byte(0)],
    ),
    // by a command's data
    (
        "not-reachable",
        &[
            Magic,
            Write(0x1000),
            Fill {
                address: 0xfffffffffffff,
                count: 2,
                pattern: 1,
            },
        ],
    ),
    // the range begins in RAM and ends behind it
    ("not-ram", &[Magic, Write(0x1000), Write(0x1019)]),
    ("check-failed", &[Magic, Write(0x1000), Check(0xf0)]),
];
