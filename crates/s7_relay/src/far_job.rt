//! What of a telegram is asked far.
ghost use Rattle.std.specs.Prelude.{◌≡◌, ◌+◌, ◌≤◌, length, All, IfOk};
ghost use Rattle.std.specs.List.{list_any};
ghost use Rattle.s7_item.specs.DataItem.{is_good};
ghost use Rattle.s7_plant.specs.Requests.{IsReady};
ghost use Rattle.s7_relay.specs.Travel.{AreGood, far_items, far_job, far_octets, fits_one, is_one_group, request_codes};

use crate::near::{NearCodes, far_item, near_codes, put_codes};
use crate::windows::Windows;
use s7_client::{ItemList, Job};
use s7_item::codes::GOOD;
use s7_item::{DataPlace, Item};
use s7_outer::{Memory, Octets};
use s7_plant::Request;
use s7_split::{Groups, pack};
use std::alloc::Global;

/// The near codes of a request's items. A request that is neither a read nor a write has no items.
pub(crate) fn request_codes(windows: &Windows, request: &Request) -> NearCodes
    requires { IsReady request.now }
    ensures { result.items ≡ request_codes windows.now request.now }
{
    match request {
        Request::Read { items } => near_codes(windows, items),
        Request::Write {
            items,
            places,
            octets,
        } => put_codes(windows, items, places.list(), octets.as_slice()),
        _ => NearCodes::new(),
    }
}

/// Whether an item travels, by the near codes.
pub(crate) fn travels(codes: &[u8]) -> bool
    ensures { result ≡ list_any is_good codes.now }
{
    codes.iter().any(|code| *code == GOOD)
}

/// The far job of a request whose items have these near codes. A request that is neither a read nor a write has none.
/// Returns `Memory` if an allocation fails.
pub(crate) fn far_job(
    alloc: Global,
    windows: &Windows,
    request: &Request,
    codes: &[u8],
) -> Result<Option<Job>, Memory>
    requires ready { IsReady request.now }
    requires codes { codes.now ≡ request_codes windows.now request.now }
    ensures { IfOk result (λ job. job ≡ far_job windows.now request.now) }
{
    match request {
        Request::Read { items } => {
            let items = far_items(alloc, windows, items.as_slice(), codes)?;
            Ok(Some(Job::ReadMany {
                items: ItemList::of_vec(items),
            }))
        }
        Request::Write {
            items,
            places,
            octets,
        } => {
            let items = far_items(alloc, windows, items.as_slice(), codes)?;
            let octets = far_octets(alloc, codes, places.list().as_slice(), octets.as_slice())?;
            Ok(Some(Job::WriteMany {
                items: ItemList::of_vec(items),
                octets: Octets::of_vec(octets),
            }))
        }
        _ => Ok(None),
    }
}

/// The far items of the items that travel.
fn far_items(
    alloc: Global,
    windows: &Windows,
    items: &[Item],
    codes: &[u8],
) -> Result<Vec<Item>, Memory>
    requires codes { length codes.now ≡ length items.now }
    requires good { AreGood windows.now items.now codes.now }
    ensures { IfOk result (λ found. found.items ≡ far_items windows.now items.now codes.now) }
{
    let mut found = Vec::with_capacity(alloc, items.len())?;
    for k in 0..items.len() {
        if codes[k] == GOOD {
            found.push_reserved(far_item(windows, &items[k]));
        }
    }
    Ok(found)
}

/// The octets of the items that travel, joined.
fn far_octets(
    alloc: Global,
    codes: &[u8],
    places: &[DataPlace],
    octets: &[u8],
) -> Result<Vec<u8>, Memory>
    requires places { length places.now ≡ length codes.now }
    requires inside { All (λ place. place.from + place.len ≤ length octets.now) places.now }
    ensures { IfOk result (λ found. found.items ≡ far_octets codes.now places.now octets.now) }
{
    let mut found = Vec::new(alloc);
    for k in 0..codes.len() {
        let place = places[k];
        if codes[k] == GOOD {
            found.extend_from_slice(&octets[place.from..place.from + place.len])?;
        }
    }
    Ok(found)
}

/// Whether a far job fits into one telegram at the PDU that was granted.
pub(crate) fn fits_one(job: &Job, granted: Option<u16>) -> bool
    ensures { result ≡ fits_one granted job.now }
{
    let Some(pdu) = granted else {
        return true;
    };
    match job {
        Job::ReadMany { items } => is_one_group(items.as_slice(), pdu, false),
        Job::WriteMany { items, .. } => is_one_group(items.as_slice(), pdu, true),
        _ => true,
    }
}

/// Whether the items are packed into one group at this PDU.
fn is_one_group(items: &[Item], pdu: u16, write: bool) -> bool
    ensures { result ≡ is_one_group pdu write items.now }
{
    let mut groups = Groups::new();
    match pack(items, pdu, write, &mut groups) {
        Ok(()) => groups.ends[..usize::from(groups.count)].len() == 1,
        Err(_) => false,
    }
}
