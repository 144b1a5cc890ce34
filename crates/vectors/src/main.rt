// The edges of document 01 §1 through the compiled code, one line for each: what was asked, and the answer.
// `stdout` says what the document says; `crates/model/proofs/Edges.antt` has the same edges as theorems.
// Then the worked examples of 01 §6 and 03 §6 through the C interface, byte for byte, each line named after its row; then those that an honest
// driver lays, by the driver.
#![tactic(auto)]

use crate::guest::Bytes;
use crate::host::{Host, STAGE_BYTES};
use std::io;

mod areas;
mod bytes;
mod driven;
mod guest;
mod honest;
mod host;
mod longest;
mod many;
mod ranges;
mod refusals;
mod say;
mod setup;
mod split;
mod states;
mod table;
mod v1;

fn edges(rt: &impl Print) -> io::Result<()> {
    setup::regions_alone(rt)?;
    setup::regions_together(rt)?;
    setup::how_many(rt)?;
    setup::kept(rt)?;
    ranges::one_region(rt)?;
    ranges::two_regions(rt)?;
    bytes::numbers16(rt)?;
    bytes::numbers32(rt)?;
    bytes::numbers64(rt)?;
    bytes::copies(rt)?;
    bytes::eights(rt)
}

// 01 §6.
fn rows_01(rt: &impl Print, host: &mut Host) -> io::Result<()> {
    v1::v1(rt, host)?;
    v1::wrap(rt, host)?;
    table::rows(rt, host)?;
    table::eights(rt, host)?;
    longest::chains(rt, host)?;
    many::rows(rt, host)
}

// 03 §6.
fn rows_03(rt: &impl Print, host: &mut Host, disk: &Bytes) -> io::Result<()> {
    honest::three(rt, host)?;
    honest::rows(rt, host)?;
    honest::seven(rt, host)?;
    split::refused(rt, host)?;
    split::out(rt, host, disk)
}

// The C interface, §2.
fn refused(rt: &impl Print, host: &mut Host) -> io::Result<()> {
    refusals::memory(rt)?;
    refusals::disks(rt)?;
    refusals::queues(rt)?;
    refusals::rooms(rt)?;
    longest::lent(rt)?;
    states::states(rt, host)?;
    states::slices(rt, host)
}

fn main(rt: HostRuntime) -> io::Result<()> {
    edges(&rt)?;
    let disk = host::disk();
    let mut host = Host {
        mem: Bytes::new(),
        backing: disk,
        stage: [0; STAGE_BYTES],
    };
    rows_01(&rt, &mut host)?;
    rows_03(&rt, &mut host, &disk)?;
    // 03 §7: the honest ones of them by the driver.
    driven::rows(&rt, &mut host)?;
    refused(&rt, &mut host)?;
    let left = host.mem.differ(&Bytes::new(), &(0..65536));
    println!(rt; "Bytes of guest memory that a row wrote where it may not: {left}")
}
