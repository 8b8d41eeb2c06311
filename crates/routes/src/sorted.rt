//! Numbers in rising order, each with a place, and the binary search among them.

ghost use Rattle.std.specs.Prelude.{◌≡◌, ◌+◌, ◌<◌, ◌≤◌, ◌++◌, ℕ, [], ◌∷◌, length, take, drop, IfOk, IfErr, slice_index_or, Ok, true, false};
ghost use Rattle.std.specs.Int.{w64, from_be_bytes};
ghost use Rattle.routes.specs.Identifiers.{StandsAt};
ghost use Rattle.routes.specs.Sorted.{IsBetween, IsIdentifier, IsSorted, Rising, key_of};
ghost use Rattle.routes.specs.declared.sorted.Route.{Route};

use std::alloc::AllocError;

/// One more than the greatest number that half of an identifier spells.
const HALF: u128 = 18_446_744_073_709_551_616;

/// The number of an identifier, and the place at which it stands.
#[derive(Clone, Copy, Drop)]
pub(crate) struct Route {
    pub(crate) key: u128,
    pub(crate) place: usize,
}

/// The number that 8 bytes of an identifier spell from a place on, the high byte first.
fn half(id: &[u8; 16], at: usize) -> u64
    requires { at + 8 ≤ 16 }
    ensures { result ≡ from_be_bytes w64 (take 8 (drop at id.now)) }
{
    u64::from_be_bytes([
        id[at],
        id[at + 1],
        id[at + 2],
        id[at + 3],
        id[at + 4],
        id[at + 5],
        id[at + 6],
        id[at + 7],
    ])
}

/// The number that an identifier spells, the high byte first.
#[tactic(auto, unfolding(crate::specs::Sorted::key_of))]
pub(crate) fn key(id: &[u8; 16]) -> u128
    ensures key { result ≡ key_of id.now }
    ensures is { IsIdentifier id.now }
{
    u128::from(half(id, 0)) * HALF + u128::from(half(id, 8))
}

/// The number at an index.
fn key_at(routes: &[Route], at: usize) -> u128
    requires { at < length routes.now }
    ensures { (d : Route) → result ≡ (slice_index_or routes.now at d).key }
{
    routes[at].key
}

/// The index at which a number stands, or else the one at which it is to be put.
pub(crate) fn search(routes: &[Route], key: u128) -> Result<usize, usize>
    requires rising { Rising routes.now }
    ensures within { IfOk result (λ i. i < length routes.now) }
    ensures found { IfOk result (λ i. (d : Route) → (slice_index_or routes.now i d).key ≡ key) }
    ensures none { IfErr result (λ at. IsBetween routes.now at key) }
{
    let mut low = 0;
    let mut high = routes.len();
    while low < high {
        let middle = low + (high - low) / 2;
        let there = key_at(routes, middle);
        if there == key {
            return Ok(middle);
        }
        if there < key {
            low = middle + 1;
        } else {
            high = middle;
        }
    }
    Err(low)
}

/// Puts an identifier behind the others, where it stands at none of their places, and tells whether that is so.
///
/// # Errors
/// Want of memory; what was added so far is then not to be used.
pub(crate) fn add(
    ids: &mut Vec<[u8; 16]>,
    routes: &mut Vec<Route>,
    id: &[u8; 16],
) -> Result<bool, AllocError>
    requires { IsSorted ids.old.items routes.old.items }
    ensures added { result ≡ Ok true → ids.new.items ≡ ids.old.items ++ id.now ∷ [] }
    ensures sorted { result ≡ Ok true → IsSorted ids.new.items routes.new.items }
    ensures fresh { result ≡ Ok true → (p : ℕ) → StandsAt ids.old.items id.now p → ⊥ }
    ensures known { result ≡ Ok false → (p : ℕ) × StandsAt ids.old.items id.now p }
{
    let key = key(id);
    let Err(at) = search(routes.as_slice(), key) else {
        return Ok(false);
    };
    let place = ids.len();
    ids.push(*id)?;
    routes.insert(at, Route { key, place })?;
    Ok(true)
}
