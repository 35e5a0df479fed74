//! Tells the mistakes and warnings of texts, for the stored run that compares what is told.
//!
//! A block of `data/mistakes.txt`, up to an empty line, is a text and the lines that `pl0 check -` tells of it, each of
//! which begins with `-:`. In a text `\0d` stands for the byte with this number in hexadecimal; its last line feed is
//! none of it. What is told otherwise is printed, and what is told of the shortest text that is too long.
#![tactic(auto)]

use anyhow::{Context, Result, anyhow};
use pl0_mistakes::{mistake_lines, warning_lines};
use pl0_syntax::parse;
use pl0_tree::SyntaxFault;
use std::alloc::{AllocError, Global};
use std::fs;
use std::io::{self, Write};

fn main(rt: HostRuntime) -> Result<()> {
    let table = fs::read_to_string(&rt, "mistakes.txt").context("no texts")?;
    let mut text = Vec::new(rt.alloc());
    let mut wanted = Vec::new(rt.alloc());
    for line in table.lines() {
        if line.is_empty() {
            compare(&rt, text.as_slice(), wanted.as_slice())?;
            text.clear();
            wanted.clear();
        } else if line.starts_with("-:") {
            wanted.extend_from_slice(line.as_bytes())?;
            wanted.push(b'\n')?;
        } else {
            if !text.is_empty() {
                text.push(b'\n')?;
            }
            text.extend_from_slice(line.as_bytes())?;
        }
    }
    compare(&rt, text.as_slice(), wanted.as_slice())?;
    let long = vec![in rt.alloc(); b' '; 65_537]?;
    put(&rt, told(rt.alloc(), long.as_slice())?.as_slice())
}

/// Prints a text, and what is told of it, if that is something else than is wanted.
fn compare<R: Print + AllocGlobal>(rt: &R, text: &[u8], wanted: &[u8]) -> Result<()> {
    let text = unescaped(rt.alloc(), text)?;
    let told = told(rt.alloc(), text.as_slice())?;
    if told.as_slice() != wanted {
        put(rt, text.as_slice())?;
        put(rt, b"\n")?;
        put(rt, told.as_slice())?;
    }
    Ok(())
}

/// Prints bytes.
fn put<R: Print + AllocGlobal>(rt: &R, bytes: &[u8]) -> Result<()> {
    match io::writer(rt).write_all(bytes) {
        Ok(()) => Ok(()),
        Err(_) => Err(anyhow!("no output")),
    }
}

/// Returns the lines that are told of a text.
fn told(alloc: Global, text: &[u8]) -> Result<Vec<u8>, AllocError> {
    match parse(alloc, text) {
        Ok(_) => warning_lines(alloc, "-", text),
        Err(SyntaxFault::InText { kind, place }) => mistake_lines(alloc, "-", text, kind, place),
        Err(SyntaxFault::NoMemory) => Err(AllocError),
    }
}

/// Returns bytes with each `\` and two digits made the byte with this number.
fn unescaped(alloc: Global, bytes: &[u8]) -> Result<Vec<u8>, AllocError> {
    let mut made = Vec::new(alloc);
    let mut digits = 0;
    let mut number = 0;
    for byte in bytes {
        if digits > 0 {
            digits -= 1;
            number = number << 4 | digit(*byte);
            if digits == 0 {
                made.push(number)?;
            }
        } else if *byte == b'\\' {
            digits = 2;
            number = 0;
        } else {
            made.push(*byte)?;
        }
    }
    Ok(made)
}

/// Returns the number of a digit in hexadecimal; 0 of another byte.
fn digit(byte: u8) -> u8 {
    match byte {
        b'0'..=b'9' => byte - b'0',
        b'a'..=b'f' => byte - b'a' + 10,
        _ => 0,
    }
}
