//! Decodes streams of requests that are fed in pieces of 4,096 bytes, as often as asked, and says how many requests they are
//! and how many bytes their texts have. The words are `put` and the bytes of one text, or `short` and how many short requests;
//! how many such streams; and how often. Each stream has a decoder of its own, and all decoders and texts are kept until the
//! last stream ends, so that sixteen small texts take the memory of a large one.

use crate::words::Words;
use anyhow::{Result, anyhow};
use pj_change::{Bytes, Memory};
use pj_machine::Command;
use pj_wire::{Decoder, Next};
use std::alloc::{AllocError, Global};

/// Five short requests.
const SHORT: [&[u8]; 5] = [
    b"apply main 4fdb5ea24421e6566f44e8d89fdde3a1c382dbec6da2808f7c88bcaf8b62d12e\n",
    b"print main\n",
    b"fork main a\n",
    b"get 76ed9f68b1cf45637866540e51226616200745e0819e4ec4ab3c484c98209ac5\n",
    b"log main\n",
];

/// One request to store a text of so many bytes.
fn one_put(alloc: Global, size: u32) -> Result<Vec<u8>, AllocError> {
    let mut input = Vec::new(alloc);
    input.extend_from_slice(format!(in alloc; "put {size}\n")?.as_bytes())?;
    for _ in 0..size {
        input.extend_from_slice(b"\n")?;
    }
    input.extend_from_slice(b"\n")?;
    Ok(input)
}

/// So many short requests.
fn short_requests(alloc: Global, count: u32) -> Result<Vec<u8>, AllocError> {
    let mut input = Vec::new(alloc);
    for number in 0..count {
        input.extend_from_slice(SHORT[(number % 5) as usize])?;
    }
    Ok(input)
}

/// What was made out of a stream.
#[derive(Drop)]
struct Decoded {
    decoder: Decoder,
    requests: u64,
    texts: Vec<Bytes>,
}

/// Takes the requests that are whole.
fn take(alloc: Global, decoded: &mut Decoded) -> Result<(), Memory> {
    for _ in 0..4_096 {
        match decoded.decoder.next(alloc)? {
            Next::Message(Command::Put(text)) => {
                decoded.requests = decoded.requests.wrapping_add(1);
                decoded.texts.push(text)?;
            }
            Next::Message(_) => decoded.requests = decoded.requests.wrapping_add(1),
            _ => break,
        }
    }
    Ok(())
}

/// Decodes a stream.
fn decode(alloc: Global, input: &[u8]) -> Result<Decoded, Memory> {
    let mut decoded = Decoded {
        decoder: Decoder::new(alloc),
        requests: 0,
        texts: Vec::new(alloc),
    };
    for piece in input.chunks(4_096) {
        decoded.decoder.feed(piece)?;
        take(alloc, &mut decoded)?;
    }
    Ok(decoded)
}

/// How many requests there are, and how many bytes their texts have.
#[derive(Clone, Copy)]
struct Counts {
    requests: u64,
    bytes: u64,
}

/// Decodes each stream once.
fn decode_all(alloc: Global, streams: &[Vec<u8>]) -> Result<Counts, Memory> {
    let mut all = Vec::new(alloc);
    let mut counts = Counts {
        requests: 0,
        bytes: 0,
    };
    for input in streams {
        let decoded = decode(alloc, input)?;
        counts.requests = counts.requests.wrapping_add(decoded.requests);
        for text in &decoded.texts {
            counts.bytes = counts.bytes.wrapping_add(text.items().len() as u64);
        }
        all.push(decoded)?;
    }
    Ok(counts)
}

/// So many streams, each of the requests of this kind.
fn streams_of(alloc: Global, kind: &str, size: u32, count: u32) -> Result<Vec<Vec<u8>>> {
    let mut streams = Vec::new(alloc);
    for _ in 0..count {
        streams.push(match kind {
            "put" => one_put(alloc, size)?,
            "short" => short_requests(alloc, size)?,
            _ => return Err(anyhow!("there is no such kind")),
        })?;
    }
    Ok(streams)
}

/// Runs the benchmark of these words.
pub fn run(rt: &HostRuntime, words: &mut Words) -> Result<()> {
    let kind = words.word("which kind?")?;
    let size = words.number("how much?")?;
    let count = words.number("how many streams?")?;
    let times = words.number("how often?")?;
    let streams = streams_of(rt.alloc(), kind.as_str(), size, count)?;
    for _ in 0..times {
        let Ok(counts) = decode_all(rt.alloc(), &streams) else {
            return Err(anyhow!("out of memory"));
        };
        println!(rt;
            "{} requests, {} bytes of texts",
            counts.requests, counts.bytes
        )?;
    }
    Ok(())
}
