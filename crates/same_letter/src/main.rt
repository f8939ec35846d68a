// same_letter KIND FILE FILE: whether two letters that arrived are the same, as document 02, order 11 asks.
#![tactic(auto)]

ghost use Rattle.std.specs.Prelude.{◌≡◌, ◌≤◌, length, IfSome};
ghost use Rattle.same_letter.specs.Room.{letter_room};

use codec::Format;
use std::env::{Env, FillError};
use std::io::{Error, Write};
use std::rt::HostRuntime;

const NAME: &[u8] = b"same_letter";

// A line on standard error. What cannot be written there is not told.
fn complain(rt: &HostRuntime, what: &[u8]) {
    let _ = complain::line(&mut rt.stderr(), NAME, what);
}

// A line on standard error: what failed, and the system's text.
fn fail(rt: &HostRuntime, what: &[u8], e: Error) {
    let _ = complain::fail(&mut rt.stderr(), NAME, what, e);
}

// Whether the program has an argument.
fn has(rt: &HostRuntime, i: usize) -> bool {
    !matches!(rt.arg(i, &mut [0u8; 1]), Err(FillError::NotPresent))
}

// The kind and the two files that the program was started with.
fn main(rt: HostRuntime) {
    if !has(&rt, 3) || has(&rt, 4) {
        complain(
            &rt,
            b"use: same_letter KIND FILE FILE, where KIND is utf7, jp2 or mailbox",
        );
        return;
    }
    let mut word = [0u8; 8];
    let n = rt.arg(1, &mut word).unwrap_or(0);
    match commands::format_named(&word[..n]) {
        Some(format) => compare(&rt, format),
        None => complain(&rt, b"KIND is utf7, jp2 or mailbox"),
    }
}

// Reads the letter that an argument names, and says how many bytes it has; one that cannot be read is told of.
fn letter(rt: &HostRuntime, i: usize, buf: &mut [u8]) -> Option<usize>
    ensures { IfSome result (λ n. n ≤ length buf.new) }
{
    let mut path = [0u8; 4096];
    let named = whole_file::process_argument(rt, i, &mut path);
    let n = named.inspect_err(|e| fail(rt, b"FILE", *e)).ok()?;
    let read = whole_file::read(rt, &path[..n], buf);
    read.inspect_err(|e| fail(rt, &path[..n], *e)).ok()
}

// Zeros, a byte more than a letter may have, so that one that is too long is refused with 16.
fn room() -> [u8; 1048577]
    ensures { letter_room ≡ length result }
{
    [0; 1048577]
}

fn compare(rt: &HostRuntime, format: Format) {
    let mut first = room();
    let mut second = room();
    compare_in(rt, format, &mut first, &mut second);
}

// Reads both letters, and compares them where both could be read.
fn compare_in(rt: &HostRuntime, format: Format, first: &mut [u8], second: &mut [u8]) {
    let one = letter(rt, 2, first);
    let two = letter(rt, 3, second);
    if let (Some(n), Some(m)) = (one, two) {
        tell(rt, format, &first[..n], &second[..m]);
    }
}

fn tell(rt: &HostRuntime, format: Format, first: &[u8], second: &[u8]) {
    let lines = same_lines::print(comparer::compare(format, first, second));
    let size = lines.size;
    let bytes = lines.bytes;
    if size <= bytes.len() {
        let _ = rt.stdout().write_all(&bytes[..size]);
    }
}
