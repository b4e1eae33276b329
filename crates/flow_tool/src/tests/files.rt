//! Files in memory, by the names that command lines give.

ghost use Rattle.flow_tool.specs.Inputs.{unknown_names};

use crate::inputs::Inputs;
use flow_core::MemorySource;
use std::cell::Cell;

/// The instance with three machines.
const THREE_MACHINES: &[u8] = b"a\n3 3 0 0 0\nb\n4 0 0\n0 8 2\n4 0 1\n";

/// Its certificate at depth 0.
pub(crate) const DEPTH_0: &[u8] = b"flowshop certificate 1\n3 3 0\n12\n3 1 2\n+BC++.B\nend\n";

/// Its certificate at depth 1.
pub(crate) const DEPTH_1: &[u8] = b"flowshop certificate 1\n3 3 1\n12\n3 1 2\nB\nC\n++.B\nend\n";

/// Its certificate at depth 2.
pub(crate) const DEPTH_2: &[u8] =
    b"flowshop certificate 1\n3 3 2\n12\n3 1 2\nB\nB\nC\nB\n+.\nB\nend\n";

/// What `gen` writes for two jobs, two machines and seed 1.
pub(crate) const GENERATED: &[u8] =
    b"number of jobs, number of machines, initial seed, upper bound and lower bound :\n\
2 2 1 122 122\nprocessing times :\n1 14\n75 46\n";

/// The instance with two machines, and then that with three.
const BOTH: &[u8] = b"a\n3 2 0 0 0\nb\n3 1 2\n2 4 2\na\n3 3 0 0 0\nb\n4 0 0\n0 8 2\n4 0 1\n";

/// The certificate of the instance with two machines at depth 0.
pub(crate) const OF_TWO_MACHINES: &[u8] = b"flowshop certificate 1\n3 2 0\n9\n2 3 1\n+BBB\nend\n";

/// A two-ended certificate of the instance of three machines.
pub(crate) const TWO_ENDED: &[u8] = b"flowshop two-ended 1\n3 3\n12 12\n3 1 2\n++\nend\n";

/// The counted certificate of the instance of three machines.
pub(crate) const COUNTED: &[u8] = b"flowshop counted 1\n3 3\n12 12\n3 1 2\n2\nend\n";

/// A two-ended certificate of the instance of three machines, whose bounds differ.
const BOUNDS: &[u8] = b"flowshop two-ended 1\n3 3\n10 13\n2 1 3\n\nend\n";

/// A start of the instance of three machines.
pub(crate) const START: &[u8] = b"sequence 1 2 3\nmakespan 15\n";

/// What each file holds, but for the one of the name `stdin`; and how many bytes it gives before it refuses.
static FILES: [(&str, &[u8], Option<usize>); 14] = [
    ("text_three", THREE_MACHINES, None),
    ("text_both", BOTH, None),
    ("./stdin", THREE_MACHINES, None),
    ("text_broken", b"", Some(0)),
    ("of_three", DEPTH_0, None),
    ("of_two", OF_TWO_MACHINES, None),
    ("generated", GENERATED, None),
    ("two_ended", TWO_ENDED, None),
    ("counted", COUNTED, None),
    ("bounds", BOUNDS, None),
    ("start", START, None),
    ("other_start", b"sequence 1 2 3\nmakespan 14\n", None),
    ("best_start", b"sequence 3 1 2\n", None),
    ("broken", b"", Some(0)),
];

/// Files in memory. Standard input is the text with two blocks. A file whose name begins with `text` is there
/// only for who opens it first.
#[derive(Drop)]
pub(crate) struct Named {
    has_opened: Cell<bool>,
    of_stdin: &'static [u8],
}

impl Named {
    /// The files, none of which was opened, with what the file of the name `stdin` holds.
    pub(crate) fn new(of_stdin: &'static [u8]) -> Named {
        Named {
            has_opened: Cell::new(false),
            of_stdin,
        }
    }
}

impl Inputs for Named {
    type Standard = MemorySource<'static>;

    type File = MemorySource<'static>;

    ghost names = { λ _. unknown_names };

    fn standard(&self) -> MemorySource<'static> {
        MemorySource::new(BOTH, 7, None)
    }

    fn open(&self, name: &str) -> Option<MemorySource<'static>> {
        if self.has_opened.replace(true) && name.starts_with("text") {
            return None;
        }
        if name == "stdin" {
            return Some(MemorySource::new(self.of_stdin, 9, None));
        }
        for (known, bytes, most) in &FILES {
            if name == *known {
                return Some(MemorySource::new(bytes, 9, *most));
            }
        }
        None
    }
}
