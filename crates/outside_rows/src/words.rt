//! Lines of words, with what each asks for by the rules of the words, written down by hand.
use cdle_words::{Asked, WordsFault, command_asked};
use std::alloc::{AllocError, Global};
use std::test::Fail;

/// Each line of words, and behind it the budget and the files that it asks for.
const COMMANDS: &str = "\
core a.core -> 200000 a.core
core b a b -> 200000 b a b
core --budget 1 a -> 1 a
core a --budget=10000000 -> 10000000 a
core a --budget 05 b -> 5 a b
core --budget=00000007 a -> 7 a
core - a -> 200000 - a
core -- --budget --x -- - -> 200000 --budget --x -- -
core --budget 3 -- -a -> 3 -a
core a -- --budget 3 -> 200000 a --budget 3
core  -> 200000\x20
core help core -> 200000 help core
core budget=3 -> 200000 budget=3";

/// Each line of words that asks to build a module, and behind it the budget and the module's name. `γ` is no letter of the tokens' table, `λ` is.
const BUILDS: &str = "\
build m -> 200000 m
build --budget 5 m -> 5 m
build -- m -> 200000 m
build m --budget=10000000 -> 10000000 m
build --budget 3 -- m -> 3 m
build build -> 200000 build
build core -> 200000 core
build _ -> 200000 _
build a1_' -> 200000 a1_'
build Prelude -> 200000 Prelude
build preludes -> 200000 preludes
build été -> 200000 été
build ΓΔ -> 200000 ΓΔ";

/// Lines of words that are no command. The first one is a word without a byte.
const NO_COMMANDS: &str = "\n\
core
Core a
cor a
--budget 3 core a
help
make 3
core --
core --budget 3
core --budget
core a --budget
core a --budget 0
core a --budget=10000001
core a --budget 000000001
core a --budget=
core a --budget=+5
core a --budget 5x
core a --budget -5
core a --budget=-5
core a --budget -
core --budget -- a
core --budget 5 --budget=5 a
core --budg 5 a
core --budgets 5 a
core -a
core a -b 5
core --help
core -h
core --version
core -V
core ---
build
Build m
builds m
build a b
build m m
build --budget 5
build m --budget
build --budget 0 m
build m --budget=10000001
build --budget 5 --budget=5 m
build -x
build --help
build -- -x
build m/n
build m/
build /
build prelude
build module
build import
build data
build m.cdle
build m.
build ./m
build m#n
build 1m
build 'm
build m-n
build {-
build m--
build ★
build λ
build δ
build Λ
build ΓΔμ
build Γσ
build m·n
build\x20
build \x20m
build m\x20
build m\t
build \tm";

/// The words of a line, which single spaces part.
fn words(alloc: Global, line: &str) -> Result<Vec<String>, AllocError> {
    let mut words = Vec::new(alloc);
    for word in line.split(' ') {
        words.push(String::from_str(alloc, word)?)?;
    }
    Ok(words)
}

/// The budget, and each file behind a space.
fn shown(alloc: Global, files: &[String], budget: u64) -> Result<String, AllocError> {
    let mut text = format!(in alloc; "{budget}")?;
    for file in files {
        text.push(' ')?;
        text.push_str(file)?;
    }
    Ok(text)
}

/// What the words ask for, as one text: the word of the command where it is `build`, the budget, and files or the module. Nothing for `Usage`.
fn asked(alloc: Global, words: &Vec<String>) -> Result<String, Fail> {
    match command_asked(alloc, words) {
        Ok(Asked::Core { files, budget }) => Ok(shown(alloc, &files, budget)?),
        Ok(Asked::Build { module, budget }) => Ok(format!(in alloc; "build {budget} {module}")?),
        Err(WordsFault::Usage) => Ok(String::new(alloc)),
        Err(WordsFault::NoMemory) => Ok(String::from_str(alloc, "out of memory")?),
    }
}

/// Whether the line asks for what is wanted.
fn asks_for(alloc: Global, line: &str, wanted: &str) -> Result<bool, Fail> {
    let words = words(alloc, line)?;
    Ok(asked(alloc, &words)?.as_str() == wanted)
}

#[test]
fn commands(rt: HostRuntime) -> Result<(), Fail> {
    for row in COMMANDS.lines() {
        let (line, wanted) = row.split_once(" -> ").expect(&rt, "a row");
        assert!(rt; asks_for(rt.alloc(), line, wanted)?);
    }
    Ok(())
}

#[test]
fn builds(rt: HostRuntime) -> Result<(), Fail> {
    for row in BUILDS.lines() {
        let (line, wanted) = row.split_once(" -> ").expect(&rt, "a row");
        let wanted = format!(in rt.alloc(); "build {wanted}")?;
        assert!(rt; asks_for(rt.alloc(), line, wanted.as_str())?);
    }
    Ok(())
}

#[test]
fn name_with_a_space(rt: HostRuntime) -> Result<(), Fail> {
    for name in ["m ", " m", "m -- x", "{--} m"] {
        let mut words = words(rt.alloc(), "build --")?;
        words.push(String::from_str(rt.alloc(), name)?)?;
        assert!(rt; asked(rt.alloc(), &words)?.as_str() == "");
    }
    Ok(())
}

#[test]
fn no_commands(rt: HostRuntime) -> Result<(), Fail> {
    for line in NO_COMMANDS.lines() {
        assert!(rt; asks_for(rt.alloc(), line, "")?);
    }
    Ok(())
}

#[test]
fn no_words(rt: HostRuntime) {
    let none = Vec::new(rt.alloc());
    assert!(rt; matches!(command_asked(rt.alloc(), &none), Err(WordsFault::Usage)));
}
