//! What is settled of all partitions, as others are told.

ghost use Rattle.std.specs.Prelude.{◌≡◌, ◌≤◌, ◌<◌, ◌++◌, ◌^◌, length, map, IfOk, OnOk};
ghost use Rattle.std.specs.List.{All, flat_map};
ghost use Rattle.commit_gate.specs.Keeping.{IsSized};
ghost use Rattle.commit_gate.specs.Marking.{length_of, read_at, reads_to, all_reads};

use crate::ledger::Ledger;
use dura_value::Floor;
use spec_tracker::{Marks, Read};
use std::alloc::{AllocError, Global};

/// How many entries of each partition are settled.
fn lengths_of(alloc: Global, ledgers: &[Ledger]) -> Result<Vec<u64>, AllocError>
    ensures { IfOk result (λ v. v.items ≡ map length_of ledgers.now) }
{
    let mut lengths = Vec::new(alloc);
    for ledger in ledgers {
        lengths.push(ledger.log_length())?;
    }
    Ok(lengths)
}

/// Puts these floors behind those that there are.
fn push_floors(floors: &mut Vec<Floor>, more: &[Floor]) -> Result<(), AllocError>
    ensures { OnOk result (floors.new.items ≡ floors.old.items ++ more.now) }
{
    for floor in more {
        floors.push(*floor)?;
    }
    Ok(())
}

/// Where incarnations began, partition by partition.
fn floors_of(alloc: Global, ledgers: &[Ledger]) -> Result<Vec<Floor>, AllocError>
    ensures { IfOk result (λ v. v.items ≡ flat_map (λ l. l.floors.items) ledgers.now) }
{
    let mut floors = Vec::new(alloc);
    for ledger in ledgers {
        push_floors(&mut floors, &ledger.floors)?;
    }
    Ok(floors)
}

/// How far a partition took in the stream from another.
fn read_of(ledger: &Ledger, reader: u32, source: u32) -> Read
    requires next { source < length ledger.now.nexts.items }
    requires entry { source < length ledger.now.readers.items }
    ensures { result ≡ read_at reader ledger.now source }
{
    let entry = ledger.readers[source as usize];
    Read {
        reader,
        source,
        next: ledger.nexts[source as usize],
        inc: entry.incarnation,
        pos: entry.position,
    }
}

/// Puts how far a partition took in the streams from so many behind those that there are.
fn push_reads(
    reads: &mut Vec<Read>,
    ledger: &Ledger,
    reader: u32,
    count: u32,
) -> Result<(), AllocError>
    requires { IsSized count ledger.now }
    ensures { OnOk result (reads.new.items ≡ reads.old.items ++ reads_to reader ledger.now count) }
{
    for source in 0..count {
        reads.push(read_of(ledger, reader, source))?;
    }
    Ok(())
}

/// How far each partition took in the streams from the others.
fn reads_of(alloc: Global, ledgers: &[Ledger], count: u32) -> Result<Vec<Read>, AllocError>
    requires count { length ledgers.now ≡ count }
    requires sized { All (IsSized count) ledgers.now }
    ensures { IfOk result (λ v. v.items ≡ all_reads count 0 ledgers.now) }
{
    let mut reads = Vec::new(alloc);
    for reader in 0..count {
        push_reads(&mut reads, &ledgers[reader as usize], reader, count)?;
    }
    Ok(reads)
}

/// What is settled of so many partitions: the length of each one's log, where its incarnations began, and how far it took in the
/// streams from the others.
pub fn marks_of(alloc: Global, ledgers: &[Ledger], count: u32) -> Result<Marks, AllocError>
    requires count { length ledgers.now ≡ count }
    requires sized { All (IsSized count) ledgers.now }
    ensures lengths { IfOk result (λ m. m.lengths.items ≡ map length_of ledgers.now) }
    ensures floors { IfOk result (λ m. m.floors.items
        ≡ flat_map (λ l. l.floors.items) ledgers.now) }
    ensures reads { IfOk result (λ m. m.reads.items ≡ all_reads count 0 ledgers.now) }
{
    let lengths = lengths_of(alloc, ledgers)?;
    let floors = floors_of(alloc, ledgers)?;
    let reads = reads_of(alloc, ledgers, count)?;
    Ok(Marks {
        lengths,
        floors,
        reads,
    })
}
