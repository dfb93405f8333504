//! What is printed.
use elab_convert::ConvertStop;
use std::alloc::Global;

/// The lines so far.
#[derive(Drop)]
pub(crate) struct Page {
    text: String,
    /// Whether there was no memory for a part of the text.
    is_short: bool,
}

impl Page {
    pub(crate) fn new(alloc: Global) -> Page {
        Page {
            text: String::new(alloc),
            is_short: false,
        }
    }

    pub(crate) fn text(&self) -> &str {
        if self.is_short {
            return "no memory for the lines\n";
        }
        self.text.as_str()
    }

    /// The row with its units, and the answer.
    pub(crate) fn line(&mut self, row: &str, units: u64, answer: &Result<bool, ConvertStop>) {
        let said = match answer {
            Ok(true) => "same",
            Ok(false) => "apart",
            Err(ConvertStop::Spent) => "spent",
            Err(ConvertStop::TooDeep) => "too deep",
            Err(ConvertStop::NoMemory) => "no memory",
        };
        if write!(self.text, "{row} {units}: {said}\n").is_err() {
            self.is_short = true;
        }
    }
}
