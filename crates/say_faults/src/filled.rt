//! Words with numbers in their places, which a table gives and one function prints.

use std::alloc::AllocError;

/// Words with a `#` at the place of each number, and the numbers in order.
#[derive(Clone, Copy)]
pub struct Filled {
    words: &'static str,
    numbers: [u128; 3],
}

/// Words without numbers.
pub const fn plain(words: &'static str) -> Filled {
    Filled {
        words,
        numbers: [0; 3],
    }
}

/// Words with a number.
pub const fn with_one(words: &'static str, number: u128) -> Filled {
    Filled {
        words,
        numbers: [number, 0, 0],
    }
}

/// Words with two numbers.
pub const fn with_two(words: &'static str, first: u128, second: u128) -> Filled {
    Filled {
        words,
        numbers: [first, second, 0],
    }
}

/// Words with three numbers.
pub const fn with_three(words: &'static str, numbers: [u128; 3]) -> Filled {
    Filled { words, numbers }
}

impl Filled {
    /// Adds the words, with the numbers in their places.
    pub fn push(self, line: &mut String) -> Result<(), AllocError> {
        let mut parts = self.words.split("#");
        line.push_str(parts.next().unwrap_or(""))?;
        for (part, number) in parts.zip(self.numbers.iter()) {
            write!(line, "{number}{part}")?;
        }
        Ok(())
    }
}
