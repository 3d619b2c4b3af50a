//! The scripts of `gen`.
ghost use Rattle.std.specs.Prelude.{◌≡◌, ◌<◌, ◌≤◌, ◌*◌, ◌+◌, ◌%◌, [], ◌∷◌, IfOk, OnOk, map, replicate, vec_len};
ghost use Rattle.s7_dialogue.specs.declared.job.Job.TheVariants as job;
ghost use Rattle.s7_tool_main.specs.Drawn.{block_item, flags_item, made_scripts};
ghost use Rattle.s7_tool_main.specs.Drawing.{after_line, after_lines, line_at, script_at};

use s7_client::{ItemList, Job};
use s7_item::Item;
use s7_item::codes::{BYTE, DATA_BLOCKS, FLAGS};
use s7_outer::Octets;
use s7_schedule::Draw;
use std::alloc::{AllocError, Global};

/// The number of clients.
const CLIENTS: u32 = 4;

/// The number of lines in the script of each client.
const LINES: u32 = 200;

/// The scripts of four clients. Each has a connect, 200 lines that are drawn from the seed, and a disconnect. Returns
/// `AllocError` if an allocation fails.
pub fn made_scripts(alloc: Global, seed: u32) -> Result<Vec<Vec<Job>>, AllocError>
    ensures scripts { IfOk result (λ all. map (λ s. s.items) all.items ≡ made_scripts seed) }
    ensures len { IfOk result (λ all. vec_len all ≡ 4) }
{
    let mut draw = Draw::new(seed);
    let mut all = Vec::new(alloc);
    for _ in 0..CLIENTS {
        all.push(next_script(alloc, &mut draw)?)?;
    }
    Ok(all)
}

/// Draws the next script.
fn next_script(alloc: Global, draw: &mut Draw) -> Result<Vec<Job>, AllocError>
    ensures script { IfOk result (λ jobs. jobs.items ≡ script_at draw.old) }
    ensures x { OnOk result (draw.new ≡ after_lines 200 draw.old) }
{
    let mut jobs = Vec::new(alloc);
    jobs.push(Job::Connect)?;
    for _ in 0..LINES {
        jobs.push(next_line(alloc, draw)?)?;
    }
    jobs.push(Job::Disconnect)?;
    Ok(jobs)
}

/// Draws the next line. Only a write draws an octet, and draws it last.
fn next_line(alloc: Global, draw: &mut Draw) -> Result<Job, AllocError>
    ensures line { IfOk result (λ line. line ≡ line_at draw.old) }
    ensures x { draw.new ≡ after_line draw.old }
{
    let kind = draw.below(4);
    let block = 1 + draw.below(4) as u16;
    let start = draw.below(3_000);
    let count = 1 + draw.below(1_000) as u16;
    if kind == 2 {
        let octet = draw.below(256) as u8;
        write_line(alloc, block_item(block, start, count), octet)
    } else if kind == 3 {
        two_line(alloc, block_item(block, start, 1 + count % 64))
    } else {
        let item = block_item(block, start, count);
        Ok(Job::ReadArea { item })
    }
}

/// The job that writes this octet to all octets of an item.
fn write_line(alloc: Global, item: Item, octet: u8) -> Result<Job, AllocError>
    ensures { IfOk result (λ line. line ≡ job.WriteArea item (replicate item.count octet)) }
{
    let octets = vec![in alloc; octet; usize::from(item.count)]?;
    Ok(Job::WriteArea {
        item,
        octets: Octets::of_vec(octets),
    })
}

/// The job that reads the first sixteen octets of the flags, and an item.
fn two_line(alloc: Global, item: Item) -> Result<Job, AllocError>
    ensures { IfOk result (λ line. line ≡ job.ReadMany (flags_item ∷ item ∷ [])) }
{
    let flags = Item {
        area: FLAGS,
        db: 0,
        word: BYTE,
        count: 16,
        address: 0,
    };
    let items = Vec::from_slice(alloc, &[flags, item])?;
    Ok(Job::ReadMany {
        items: ItemList::of_vec(items),
    })
}

/// The item of octets of a data block.
fn block_item(block: u16, start: u32, count: u16) -> Item
    requires { start < 3000 }
    ensures { result ≡ block_item block start count }
{
    Item {
        area: DATA_BLOCKS,
        db: block,
        word: BYTE,
        count,
        address: 8 * start,
    }
}
