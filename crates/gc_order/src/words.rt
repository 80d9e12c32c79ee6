//! What clap found of a command's arguments.

ghost use Rattle.std.specs.Prelude.{◌≡◌, map, IfOk, string_bytes};
ghost use Rattle.clap.specs.Words.{found_of, rows_of};
ghost use Rattle.gc_order.specs.Order.{flag_in, number_in, version_numbered, word_of, words_of};

use clap::ArgMatches;
use gc_file::Version;
use std::alloc::{AllocError, Global};

/// The version of garbled files that a number names.
pub(crate) fn version_of(number: u32) -> Version
    ensures { result ≡ version_numbered number }
{
    if number == 1 {
        Version::One
    } else {
        Version::Two
    }
}

/// The number that clap found for an id. clap refuses an argument that is no number in its range.
pub(crate) fn number_of(found: &ArgMatches<'_>, id: &str) -> u32
    ensures { result ≡ number_in (word_of id.now (rows_of (found_of found.now))) }
{
    number_in(found.get_str(id).unwrap_or(""))
}

/// Whether the flag of an id is set, by what clap found for it.
pub(crate) fn is_flagged(found: &ArgMatches<'_>, id: &str) -> bool
    ensures { result ≡ flag_in (word_of id.now (rows_of (found_of found.now))) }
{
    flag_in(found.get_str(id).unwrap_or(""))
}

/// Whether the word that clap found for a flag says that it is set.
fn flag_in(word: &str) -> bool
    ensures { result ≡ flag_in word.now }
{
    word == "true"
}

/// The number that a text spells, or 0 where it spells none below 2^32.
fn number_in(text: &str) -> u32
    ensures { result ≡ number_in text.now }
{
    text.parse::<u32>().unwrap_or(0)
}

/// The argument that clap found for an id. clap refuses a line that lacks a required one.
pub(crate) fn word_of(alloc: Global, found: &ArgMatches<'_>, id: &str) -> Result<String, AllocError>
    ensures { IfOk result
        (λ word. string_bytes word ≡ word_of id.now (rows_of (found_of found.now))) }
{
    String::from_str(alloc, found.get_str(id).unwrap_or(""))
}

/// The arguments that clap found for an id, in order.
pub(crate) fn words_of(
    alloc: Global,
    found: &ArgMatches<'_>,
    id: &str,
) -> Result<Vec<String>, AllocError>
    ensures { IfOk result (λ words. map string_bytes words.items
        ≡ words_of id.now (rows_of (found_of found.now))) }
{
    match found.get_strs(id) {
        Some(words) => copies_of(alloc, words),
        None => Ok(Vec::new(alloc)),
    }
}

fn copies_of(alloc: Global, words: &[&str]) -> Result<Vec<String>, AllocError>
    ensures { IfOk result
        (λ copies. map string_bytes copies.items ≡ map (λ word. word.now) words.now) }
{
    let mut copies = Vec::with_capacity(alloc, words.len())?;
    for word in words {
        copies.push(String::from_str(alloc, word)?)?;
    }
    Ok(copies)
}
