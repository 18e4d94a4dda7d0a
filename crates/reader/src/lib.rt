// A reader that keeps the stream it was opened over beside its place in the walk. Its methods take it apart and call the walk's
// by-value step. One struct serves both forms: next_text reads the stream as text, next_binary as binary. At a refusal or the end a
// step hands the state back as it was, so the reader handed back is the same.
#![tactic(auto)]

ghost use Rattle.std.specs.Prelude.{◌≡◌};
ghost use Rattle.reader.specs.Reading.{opened, resumed_at, text_taken, binary_taken};

use format::{BinaryOffset, TextOffset};
use walk_state::{Found, Walk};

#[derive(Clone, Copy)]
pub struct Reader<'a> {
    pub src: &'a [u8],
    pub walk: Walk,
}

// What a step found, in a form's own offsets, and the reader behind it.
#[derive(Clone, Copy)]
pub struct Taken<'a, P> {
    pub reader: Reader<'a>,
    pub found: Found<P>,
}

impl<'a> Reader<'a> {
    // At the stream's start.
    pub fn new(src: &'a [u8]) -> Reader<'a>
        ensures { result ≡ opened src.entry }
    {
        Reader {
            src,
            walk: Walk::new(),
        }
    }

    // At a state of the caller's, over the same stream.
    pub fn resumed(self, walk: Walk) -> Reader<'a>
        ensures { result ≡ resumed_at self.entry walk }
    {
        Reader {
            src: self.src,
            walk,
        }
    }

    pub fn state(self) -> Walk
        ensures { result ≡ self.entry.walk }
    {
        self.walk
    }

    pub fn stream(self) -> &'a [u8]
        ensures { result ≡ self.entry.src }
    {
        self.src
    }

    // The next item of a text, the first refusal or the end.
    pub fn next_text(self) -> Taken<'a, TextOffset>
        ensures { result ≡ text_taken self.entry }
    {
        let stepped = walk::step_text(self.walk, self.src);
        Taken {
            reader: Reader {
                src: self.src,
                walk: stepped.next,
            },
            found: stepped.found,
        }
    }

    // The same of a binary.
    pub fn next_binary(self) -> Taken<'a, BinaryOffset>
        ensures { result ≡ binary_taken self.entry }
    {
        let stepped = walk::step_binary(self.walk, self.src);
        Taken {
            reader: Reader {
                src: self.src,
                walk: stepped.next,
            },
            found: stepped.found,
        }
    }
}
