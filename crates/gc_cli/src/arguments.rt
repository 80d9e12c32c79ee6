//! Expands a command line: `--args-from FILE` stands for the lines of FILE.

ghost use Rattle.std.specs.Prelude.{◌≡◌, ◌++◌, ◌≢◌, ◌∷◌, ℕ, List, map, string_bytes, IfErr, IfOk, IfNone, IfSome, OnOk, true, false, codes, length, ◌<◌, []};
ghost use Rattle.gc_disk.specs.Files.{HasFailed};
ghost use Rattle.gc_cli.specs.Arguments.{AreLines, ArePlain, AreRefused, AskForHelp, FirstStandsFor, HasLines, IsEnd, IsOption, IsRefusedFile, IsRefusedLine, IsRefusedNext, LineStandsFor, StandForThemselves, WordsStandFor, help_last};

use gc_disk::{FileError, Files};
use std::alloc::{AllocError, Allocator};

/// The option whose value is the name of a file of arguments.
const OPTION: &str = "--args-from";

/// The option and what parts it from its value where both are one word.
const OPTION_WITH_FILE: &str = "--args-from=";

/// Why a command line is refused before its arguments are parsed.
#[derive(Clone, Copy, Debug, PartialEq, Eq)]
pub enum Refusal {
    /// The option comes last, and has no file.
    NoFile,
    /// The option's file can't be read, or isn't UTF-8.
    CannotRead,
    /// There is no memory for the arguments.
    Memory,
}

impl From<AllocError> for Refusal {
    ghost use Rattle.std.specs.Prelude.{◌≡◌};
    ghost use Rattle.gc_cli.specs.declared.arguments.Refusal.TheVariants as refusals;

    ghost from_gives = { λ _ e. e ≡ refusals.Memory };

    fn from(_e: AllocError) -> Refusal {
        Refusal::Memory
    }
}

/// Whether the words of a command line stand for themselves, so that no argument need be copied.
pub(crate) fn stand_for_themselves(words: &[String]) -> bool
    ensures yes { result ≡ true → StandForThemselves (map string_bytes words.now) }
    ensures no { result ≡ false → ¬ StandForThemselves (map string_bytes words.now) }
{
    match words.split_first() {
        Some((_, given)) => !ask_for_help(words) && are_plain(given),
        None => true,
    }
}

/// Whether each word before the end is plain.
fn are_plain(words: &[String]) -> bool
    ensures yes { result ≡ true → ArePlain (map string_bytes words.now) }
    ensures no { result ≡ false → ¬ ArePlain (map string_bytes words.now) }
{
    let mut left = words;
    while let Some((word, later)) = left.split_first() {
        if word.as_str() == "--" {
            return true;
        }
        if is_option(word.as_str()) {
            return false;
        }
        left = later;
    }
    true
}

/// Whether a word is the option, with its file or without it.
fn is_option(word: &str) -> bool
    ensures yes { result ≡ true → IsOption word.now }
    ensures no { result ≡ false → ¬ IsOption word.now }
{
    match file_in(word) {
        Some(_) => true,
        None => word == OPTION,
    }
}

/// The arguments that the words of a command line stand for, of which the first is the program's name.
pub fn arguments_of<A: Allocator + Copy, F: Files>(
    alloc: A,
    words: &[String],
    files: &mut F,
) -> Result<Vec<String<A>, A>, Refusal>
    ensures given { IfOk result (λ arguments. LineStandsFor (F.bytes files.old)
        (map string_bytes words.now) (map string_bytes arguments.items)) }
    ensures refusal { IfErr result (IsRefusedLine (F.bytes files.old)
        (HasFailed (F.failures files.old) (F.failures files.new)) (map string_bytes words.now)) }
    ensures unfailed { OnOk result (F.failures files.new ≡ F.failures files.old) }
    ensures same { (name : List ℕ) → F.bytes files.new name ≡ F.bytes files.old name }
{
    let mut arguments = Vec::new(alloc);
    let Some((program, rest)) = words.split_first() else {
        return Ok(arguments);
    };
    push_argument(alloc, program.as_str(), &mut arguments)?;
    push_arguments(alloc, rest, files, &mut arguments)?;
    put_help_last(alloc, &mut arguments)?;
    Ok(arguments)
}

/// Puts `--help` at the end in place of a first argument `help`.
fn put_help_last<A: Allocator + Copy>(
    alloc: A,
    arguments: &mut Vec<String<A>, A>,
) -> Result<(), AllocError>
    ensures { OnOk result (map string_bytes arguments.new.items
        ≡ help_last (map string_bytes arguments.old.items)) }
{
    if !ask_for_help(arguments) {
        return Ok(());
    }
    push_argument(alloc, "--help", arguments)?;
    let _ = arguments.remove(1);
    Ok(())
}

/// Whether the first argument, after the program's name, is `help`.
fn ask_for_help<A: Allocator>(arguments: &[String<A>]) -> bool
    ensures yes { result ≡ true → AskForHelp (map string_bytes arguments.now) }
    ensures no { result ≡ false → ¬ AskForHelp (map string_bytes arguments.now) }
    ensures last { result ≡ false
        → help_last (map string_bytes arguments.now) ≡ map string_bytes arguments.now }
{
    let Some((_, given)) = arguments.split_first() else {
        return false;
    };
    match given.split_first() {
        Some((first, _)) => first.as_str() == "help",
        None => false,
    }
}

/// Adds the arguments that the words after the program's name stand for.
fn push_arguments<A: Allocator + Copy, F: Files>(
    alloc: A,
    words: &[String],
    files: &mut F,
    arguments: &mut Vec<String<A>, A>,
) -> Result<(), Refusal>
    ensures given { OnOk result ((given : List (List ℕ))
        × ((map string_bytes arguments.new.items ≡ map string_bytes arguments.old.items ++ given)
        × WordsStandFor (F.bytes files.old) (map string_bytes words.now) given)) }
    ensures refusal { IfErr result (AreRefused (F.bytes files.old)
        (HasFailed (F.failures files.old) (F.failures files.new)) (map string_bytes words.now)) }
    ensures unfailed { OnOk result (F.failures files.new ≡ F.failures files.old) }
    ensures same { (name : List ℕ) → F.bytes files.new name ≡ F.bytes files.old name }
{
    let mut left = words;
    while !is_end(left) {
        left = push_first(alloc, left, files, arguments)?;
    }
    push_copies(alloc, left, arguments)?;
    Ok(())
}

/// Whether no word is left, or `--` comes next.
fn is_end(words: &[String]) -> bool
    ensures end { result ≡ true → IsEnd (map string_bytes words.now) }
    ensures more { result ≡ false → ¬ (IsEnd (map string_bytes words.now)) }
{
    match words.split_first() {
        Some((word, _)) => word.as_str() == "--",
        None => true,
    }
}

/// Adds the arguments that what comes first in the words stands for, and returns the words that are left.
fn push_first<'w, A: Allocator + Copy, F: Files>(
    alloc: A,
    words: &'w [String],
    files: &mut F,
    arguments: &mut Vec<String<A>, A>,
) -> Result<&'w [String], Refusal>
    requires { ¬ (IsEnd (map string_bytes words.now)) }
    ensures given { IfOk result (λ left. (given : List (List ℕ))
        × ((map string_bytes arguments.new.items ≡ map string_bytes arguments.old.items ++ given)
        × FirstStandsFor (F.bytes files.old) (map string_bytes words.now) given
        (map string_bytes left.now))) }
    ensures shorter { IfOk result (λ left. length left.now < length words.now) }
    ensures refusal { IfErr result (IsRefusedNext (F.bytes files.old)
        (HasFailed (F.failures files.old) (F.failures files.new)) (map string_bytes words.now)) }
    ensures unfailed { OnOk result (F.failures files.new ≡ F.failures files.old) }
    ensures same { (name : List ℕ) → F.bytes files.new name ≡ F.bytes files.old name }
{
    let Some((word, left)) = words.split_first() else {
        unreachable!()
    };
    if word.as_str() == OPTION {
        let Some((name, left)) = left.split_first() else {
            return Err(Refusal::NoFile);
        };
        push_file(alloc, name.as_str(), files, arguments)?;
        return Ok(left);
    }
    if let Some(name) = file_in(word.as_str()) {
        push_file(alloc, name, files, arguments)?;
        return Ok(left);
    }
    push_argument(alloc, word.as_str(), arguments)?;
    Ok(left)
}

/// The name of the file in a word that is the option with its file.
fn file_in(word: &str) -> Option<&str>
    ensures file { IfSome result (λ name. word.now ≡ codes "--args-from=" ++ name.now) }
    ensures none { IfNone result ((name : List ℕ) → word.now ≢ codes "--args-from=" ++ name) }
{
    word.strip_prefix(OPTION_WITH_FILE)
}

/// Adds the lines of the file of this name.
fn push_file<A: Allocator + Copy, F: Files>(
    alloc: A,
    name: &str,
    files: &mut F,
    arguments: &mut Vec<String<A>, A>,
) -> Result<(), Refusal>
    ensures given { OnOk result ((lines : List (List ℕ))
        × ((map string_bytes arguments.new.items ≡ map string_bytes arguments.old.items ++ lines)
        × HasLines (F.bytes files.old) name.now lines)) }
    ensures refusal { IfErr result (λ refusal. IsRefusedFile (F.bytes files.old)
        (HasFailed (F.failures files.old) (F.failures files.new)) name.now refusal) }
    ensures unfailed { OnOk result (F.failures files.new ≡ F.failures files.old) }
    ensures same { (n : List ℕ) → F.bytes files.new n ≡ F.bytes files.old n }
{
    let bytes = match files.read(alloc, name) {
        Ok(bytes) => bytes,
        Err(FileError::Memory) => return Err(Refusal::Memory),
        Err(_) => return Err(Refusal::CannotRead),
    };
    let Ok(text) = String::from_utf8(bytes) else {
        return Err(Refusal::CannotRead);
    };
    push_lines(alloc, text.as_str(), arguments)?;
    Ok(())
}

/// Adds each line of a text. A line ends with a line feed, or with the text.
fn push_lines<A: Allocator + Copy>(
    alloc: A,
    text: &str,
    arguments: &mut Vec<String<A>, A>,
) -> Result<(), AllocError>
    ensures { OnOk result ((lines : List (List ℕ))
        × ((map string_bytes arguments.new.items ≡ map string_bytes arguments.old.items ++ lines)
        × AreLines text.now lines)) }
{
    let mut rest = text;
    while let Some((line, after)) = rest.split_once('\n') {
        push_argument(alloc, line, arguments)?;
        rest = after;
    }
    if rest.is_empty() {
        return Ok(());
    }
    push_argument(alloc, rest, arguments)
}

/// Adds a copy of each word.
fn push_copies<A: Allocator + Copy>(
    alloc: A,
    words: &[String],
    arguments: &mut Vec<String<A>, A>,
) -> Result<(), AllocError>
    ensures { OnOk result (map string_bytes arguments.new.items
        ≡ map string_bytes arguments.old.items ++ map string_bytes words.now) }
{
    for word in words {
        push_argument(alloc, word.as_str(), arguments)?;
    }
    Ok(())
}

/// Adds a copy of this text.
fn push_argument<A: Allocator + Copy>(
    alloc: A,
    text: &str,
    arguments: &mut Vec<String<A>, A>,
) -> Result<(), AllocError>
    ensures { OnOk result (map string_bytes arguments.new.items
        ≡ map string_bytes arguments.old.items ++ text.now ∷ []) }
{
    arguments.push(String::from_str(alloc, text)?)?;
    Ok(())
}
