// Document 01's save M9, cut after every number of its stores: what the image then reads as, and what a fresh save over it leaves.
// The image before it is a finished save of another region. Standard input has M9's message and then its blocks, as the Rust's
// serializers write them.
#![tactic(auto)]

use end_to_end::anew::call_save_anew;
use end_to_end::call_save_read;
use image::ImageRead;
use save::Target;
use save_step::{Progress, Save, save_step};
use std::io;
use streams::read_full;
use text::words::write_bytes;

// M9: `start` 20000, end 20252, 378 stores.
const START: usize = 20000;

const END: usize = 20252;

const STORES: u64 = 378;

// Three lists of one region, of which only the first gets one, by a `free`.
fn calls(addr: u64, len: u64) -> [u64; 4] {
    [0, 0, addr, len]
}

// Blocks from `start` on, message at 0.
fn target(start: u64) -> Target {
    Target {
        page: 4096,
        start,
        place: 0,
    }
}

// Whether a reading gives these counts of the slots, and its run these sections.
fn reads_as(read: ImageRead, run: &[u64], counts: &[u64], sections: &[u64]) -> bool {
    read.answer.is_ok() && read.counts.as_slice() == counts && run == sections
}

// Saves a free region with its blocks at `start`, cut after `k` steps, and reads the image into a run.
fn save_cut(
    addr: u64,
    len: u64,
    start: u64,
    k: u64,
    image: &mut [u8],
    run: &mut [u64],
) -> ImageRead {
    let mut metadata = [0; 2];
    let mut raw = [0; 2];
    let mut unclassified = [0; 2];
    let mut scratch = [0; 377];
    let after = call_save_read(
        &calls(addr, len),
        &mut metadata,
        &mut raw,
        &mut unclassified,
        target(start),
        image,
        &mut scratch,
        k,
        run,
    );
    after.saved.read
}

fn reads_old(read: ImageRead, run: &[u64]) -> bool {
    reads_as(
        read,
        run,
        &[1, 0, 0, 0, 0, 0, 0, 0, 0, 0, 0, 0],
        &[1000, 50, 0, 0, 0, 0],
    )
}

// A finished save of the region (1000, 50), with its blocks at 10000, over a message of version 1 and strategy 1.
fn save_old(image: &mut [u8]) -> bool {
    write_bytes(image, 0, &[1, 1]);
    let mut run = [0; 6];
    let read = save_cut(1000, 50, 10000, u64::MAX, image, &mut run);
    reads_old(read, &run)
}

// Whether M9 over the old image, cut after `k` stores, reads as before it, as no sections, or as M9's.
fn read_agrees(k: u64, old: &[u8]) -> bool {
    let mut image = [0; END];
    write_bytes(&mut image, 0, old);
    let mut run = [0; 6];
    let read = save_cut(4000, 5000, START as u64, k, &mut image, &mut run);
    if k == 0 {
        return reads_old(read, &run);
    }
    if k < STORES {
        return reads_as(
            read,
            &run,
            &[0, 0, 0, 0, 0, 0, 0, 0, 0, 0, 0, 0],
            &[0, 0, 0, 0, 0, 0],
        );
    }
    reads_as(
        read,
        &run,
        &[2, 0, 0, 0, 0, 0, 1, 0, 0, 0, 0, 0],
        &[4000, 96, 8192, 808, 4096, 4096],
    )
}

// Whether M9 over the old image, cut after `k` stores and then saved anew, ends in the uncut image.
fn fresh_agrees(k: u64, old: &[u8], uncut: &[u8]) -> bool {
    let mut image = [0; END];
    write_bytes(&mut image, 0, old);
    let mut metadata = [0; 2];
    let mut raw = [0; 2];
    let mut unclassified = [0; 2];
    let mut scratch = [0; 377];
    let mut other = [0; 377];
    call_save_anew(
        &calls(4000, 5000),
        &mut metadata,
        &mut raw,
        &mut unclassified,
        target(START as u64),
        &mut image,
        &mut scratch,
        &mut other,
        k,
    );
    image.as_slice() == uncut
}

fn print_line(rt: &impl Print, words: &[u8], value: u64) -> io::Result<()> {
    rt.write_all(words)?;
    println!(rt; "{value}")
}

// At how many cuts the readings agree, and at how many the fresh saves.
fn print_cuts(rt: &impl Print, old: &[u8], uncut: &[u8]) -> io::Result<()> {
    let read = (0..=STORES).filter(|k| read_agrees(*k, old)).count();
    let fresh = (0..=STORES)
        .filter(|k| fresh_agrees(*k, old, uncut))
        .count();
    print_line(rt, b"cuts ", STORES + 1)?;
    print_line(rt, b"readings that agree ", read as u64)?;
    print_line(rt, b"fresh saves that end uncut ", fresh as u64)
}

// What a step of M9 says when `done` stores are made.
fn print_step(rt: &impl Print, done: u64, image: &mut [u8]) -> io::Result<()> {
    let save = Save {
        start: START as u64,
        place: 0,
        len: (END - START) as u64,
        done,
    };
    match save_step(save, image, &[0; 377]) {
        Ok(Progress::Stored(after)) => print_line(rt, b"stored ", after.done),
        Ok(Progress::Finished) => print_line(rt, b"finished after ", done),
        Err(refusal) => print_line(rt, b"refused ", u64::from(refusal.number())),
    }
}

fn main(rt: HostRuntime) -> io::Result<()> {
    let mut m9 = [0; 377];
    read_full(&mut rt.reader(), &mut m9)?;
    let mut old = [0; END];
    let saved = save_old(&mut old);
    // The uncut image: M9's message and blocks, and else the old bytes.
    let mut uncut = [0; END];
    write_bytes(&mut uncut, 0, &old);
    write_bytes(&mut uncut, 0, &m9[0..125]);
    write_bytes(&mut uncut, START, &m9[125..377]);
    if saved {
        print_cuts(&rt, &old, &uncut)?;
    }
    print_step(&rt, STORES - 1, &mut old)?;
    print_step(&rt, STORES, &mut old)?;
    print_step(&rt, 0, &mut old[0..END - 1])
}
