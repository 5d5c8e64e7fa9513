//! How fast a deframer takes records, beside a plain copy of the same bytes.
//!
//! It takes about a megabyte N times, and prints the time of N plain copies and of N times through the deframer.

use crate::print_row;
use anyhow::Result;
use std::rt::Clock;
use std::time::Instant;
use test_words::Row;
use tn_wire::{Deframer, Event, Step, WireFault, frame};

/// A record of 1,920 bytes, one FF among them.
const RECORD: &str = "C1*1919 FF";

/// Adds a framed record so often that it is about a megabyte.
fn push_often(row: &mut Row, stream: &mut Vec<u8>, framed: &[u8]) {
    for _ in 0..520 {
        row.note(stream.extend_from_slice(framed));
    }
}

/// About a megabyte of framed records.
fn make_stream(row: &mut Row) -> Vec<u8> {
    let record = row.read_bytes(RECORD);
    let mut stream = Vec::new(row.alloc());
    match frame(row.alloc(), record.as_slice()) {
        Ok(framed) => push_often(row, &mut stream, framed.as_slice()),
        Err(_) => row.spoil(),
    }
    stream
}

/// How many bytes the records of a stream have.
fn count_bytes(deframer: &mut Deframer, stream: &[u8]) -> Result<u64, WireFault> {
    let mut rest = stream;
    let mut bytes = 0u64;
    'events: loop {
        match deframer.next(&mut rest)? {
            Step::NeedMore => return Ok(bytes),
            Step::Event(Event::Record(record)) => {
                bytes = bytes.saturating_add(record.len() as u64);
            }
            Step::Event(_event) => {}
        }
    }
}

/// Copies a stream so many times.
fn copy_often(row: &mut Row, stream: &[u8], times: u32) {
    let mut copy = Vec::new(row.alloc());
    for _ in 0..times {
        copy.clear();
        row.note(copy.extend_from_slice(stream));
    }
}

/// Takes a stream so many times.
fn take_often(row: &mut Row, deframer: &mut Deframer, stream: &[u8], times: u32) {
    for _ in 0..times {
        if count_bytes(deframer, stream).is_err() {
            row.spoil();
        }
    }
}

/// Adds how many bytes the records of about a megabyte have.
pub(crate) fn push_megabyte(row: &mut Row) {
    let stream = make_stream(row);
    let Ok(mut deframer) = Deframer::new(row.alloc()) else {
        return row.spoil();
    };
    match count_bytes(&mut deframer, stream.as_slice()) {
        Ok(bytes) => row.show(&bytes),
        Err(_) => row.spoil(),
    }
    row.word(" bytes in records");
}

/// Adds the microseconds of so many copies and of so many times through a deframer.
fn push_times(
    rt: &impl Clock,
    row: &mut Row,
    deframer: &mut Deframer,
    stream: &[u8],
    times: u32,
) -> Result<()> {
    let start = Instant::now(rt)?;
    copy_often(row, stream, times);
    row.show(&start.elapsed(rt)?.as_micros());
    row.word(" us, deframer ");
    let start = Instant::now(rt)?;
    take_often(row, deframer, stream, times);
    row.show(&start.elapsed(rt)?.as_micros());
    row.word(" us");
    Ok(())
}

/// The same of about a megabyte, with its length.
fn push_measured(rt: &impl Clock, row: &mut Row, times: u32) -> Result<()> {
    let stream = make_stream(row);
    row.number(times);
    row.word_length(" times ", stream.len());
    row.word(" bytes: copy ");
    let mut deframer = Deframer::new(row.alloc())?;
    push_times(rt, row, &mut deframer, stream.as_slice(), times)
}

/// Prints it.
pub(crate) fn measure(rt: &(impl Clock + Print + AllocGlobal), times: &str) -> Result<()> {
    let mut row = Row::new(rt.alloc());
    let times = row.read_number(times);
    push_measured(rt, &mut row, times)?;
    print_row(rt, row)
}
