//! The commands that are run, each with the files of its CONFIG and INPUT, and of what it has to give.

use crate::commands::devices::Case;
use crate::commands::texts::{Text, bytes_named};
use crate::commands::told::Whole;

/// A command: its words, and the files of CONFIG, of INPUT, and of all that WIRE and OUT are to gain; no name is no bytes.
#[derive(Clone, Copy)]
pub struct Form {
    words: &'static str,
    config: &'static str,
    input: &'static str,
    wire: &'static str,
    out: &'static str,
}

/// `answer` of the recorded client.
const ANSWER: Form = Form {
    words: "answer C I W O",
    config: "answer.toml",
    input: "client.hex",
    wire: "wire.hex",
    out: "lines.txt",
};

/// `check` of a schema.
const CHECK: Form = Form {
    words: "check C O",
    config: "schema.toml",
    input: "",
    wire: "",
    out: "layout.txt",
};

/// `decode` of the orders.
const DECODE: Form = Form {
    words: "decode C I O",
    config: "orders.toml",
    input: "orders.hex",
    wire: "",
    out: "orders.txt",
};

/// `decode` of the orders and the beginning of a frame.
const CUT: Form = Form {
    words: "decode C I O",
    config: "orders.toml",
    input: "cut.hex",
    wire: "",
    out: "orders.txt",
};

/// `encode` of the orders.
const ENCODE: Form = Form {
    words: "encode C I W",
    config: "orders.toml",
    input: "orders.txt",
    wire: "orders.hex",
    out: "",
};

/// The command of a name.
pub fn form_of(name: &str) -> Form {
    match name {
        "check" => CHECK,
        "decode" => DECODE,
        "cut" => CUT,
        "encode" => ENCODE,
        _ => ANSWER,
    }
}

impl Form {
    /// A run over the command's files.
    pub fn case(self, texts: &[Text]) -> Case<'_> {
        Case {
            words: self.words,
            config: bytes_named(texts, self.config),
            input: bytes_named(texts, self.input),
        }
    }

    /// All that the command is to give.
    pub fn whole(self, texts: &[Text]) -> Whole<'_> {
        Whole {
            wire: bytes_named(texts, self.wire),
            out: bytes_named(texts, self.out),
        }
    }
}
