//! What is printed, and how a call's answer stands in it.
use crate::calls::Tree;
use elab_tree::TreeStop;
use std::alloc::Global;

/// The lines so far.
#[derive(Drop)]
pub(crate) struct Page {
    text: String,
    /// Whether there was no memory for a part of the text.
    is_short: bool,
}

impl Page {
    pub(crate) fn new(alloc: Global) -> Page {
        Page {
            text: String::new(alloc),
            is_short: false,
        }
    }

    pub(crate) fn text(&self) -> &str {
        if self.is_short {
            return "no memory for the lines\n";
        }
        self.text.as_str()
    }

    pub(crate) fn word(&mut self, word: &str) {
        if self.text.push_str(word).is_err() {
            self.is_short = true;
        }
    }

    /// The word and the number.
    pub(crate) fn number(&mut self, word: &str, number: u32) {
        if write!(self.text, "{word}{number}").is_err() {
            self.is_short = true;
        }
    }

    /// The tree, or its depth and whether it has an unknown.
    pub(crate) fn tree<T: Tree>(&mut self, tree: &T) {
        if tree.levels() < 16 {
            tree.show(self);
        } else {
            self.size(tree);
        }
    }

    /// The tree's depth, and whether it has an unknown.
    pub(crate) fn size<T: Tree>(&mut self, tree: &T) {
        self.number(" depth ", tree.levels());
        if tree.is_open() {
            self.word(" open");
        }
    }

    /// What a call gave, at the end of its line.
    pub(crate) fn answer<T: Tree>(&mut self, answer: Result<T, TreeStop>) {
        self.word(" =");
        match answer {
            Ok(tree) => self.tree(&tree),
            Err(TreeStop::TooDeep) => self.word(" too deep"),
            Err(TreeStop::NoMemory) => self.word(" no memory"),
        }
        self.word("\n");
    }
}
