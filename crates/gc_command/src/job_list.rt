//! The list of jobs that a text is.

ghost use Rattle.std.specs.Prelude.{◌≡◌, map, IfOk, IfErr};
ghost use Rattle.gc_netlist.specs.Text.{is_blank, tokens};
ghost use Rattle.gc_command.specs.JobList.{HasTextFault, IsJobList, has_words, listed};

use crate::fault::Fault;
use gc_rounds::MAX_JOBS;
use gc_tokens::is_blank;
use std::alloc::{AllocError, Allocator};
use std::str;

/// The lines of a text that name a job: those with a token. It refuses a text that is not UTF-8, and more than
/// [`MAX_JOBS`] jobs.
pub fn listed_lines<A: Allocator + Copy>(alloc: A, text: &[u8]) -> Result<Vec<&str, A>, Fault>
    ensures list { IfOk result (λ _. IsJobList text.now) }
    ensures lines { IfOk result
        (λ lines. map (λ line. tokens line.now) lines.items ≡ listed text.now) }
    ensures fault { IfErr result (HasTextFault text.now) }
{
    let Ok(text) = str::from_utf8(text) else {
        return Err(Fault::BadList);
    };
    let lines = lines_with_words(alloc, text)?;
    if lines.len() > MAX_JOBS {
        return Err(Fault::BadList);
    }
    Ok(lines)
}

/// The lines of a text that have a token. Lines end at line feeds.
fn lines_with_words<A: Allocator>(alloc: A, text: &str) -> Result<Vec<&str, A>, AllocError>
    ensures { IfOk result (λ lines. map (λ line. tokens line.now) lines.items ≡ listed text.now) }
{
    text.split('\n')
        .filter(|line| has_words(line))
        .collect(alloc)
}

/// Whether a line has a token: a byte that is no blank.
fn has_words(line: &str) -> bool
    ensures { result ≡ has_words (tokens line.now) }
{
    for byte in line.as_bytes() {
        if !is_blank(*byte) {
            return true;
        }
    }
    false
}

/// The tokens of a line, as texts.
pub fn words_of_line<A: Allocator + Copy>(alloc: A, line: &str) -> Result<Vec<&str, A>, AllocError>
    ensures { IfOk result (λ words. map (λ word. word.now) words.items ≡ tokens line.now) }
{
    let tokens = tokens_of(alloc, line.as_bytes())?;
    let mut words = Vec::with_capacity(alloc, tokens.len())?;
    for token in &tokens {
        let Ok(word) = str::from_utf8(token) else {
            unreachable!()
        };
        words.push(word)?;
    }
    Ok(words)
}

/// The tokens of a line, as bytes.
fn tokens_of<A: Allocator>(alloc: A, line: &[u8]) -> Result<Vec<&[u8], A>, AllocError>
    ensures { IfOk result (λ parts. map (λ part. part.now) parts.items ≡ tokens line.now) }
{
    line.split(|byte| is_blank(*byte))
        .filter(|part| !part.is_empty())
        .collect(alloc)
}
