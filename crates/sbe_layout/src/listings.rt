//! What the types of a schema list: the values of an enum and the bits of a set.

ghost use Rattle.std.specs.Prelude.{◌≡◌, IfOk};
ghost use Rattle.sbe_layout.specs.Plans.{listing_of, listings_of};

use lists::List;
use sbe_schema::{BitDefs, TypeDef, TypeKind, ValueDefs};
use std::alloc::{AllocError, Global};

/// What a type lists.
#[derive(Drop)]
pub enum Listing {
    /// Nothing: it is a number or a composite.
    Nothing,
    /// The values of an enum.
    Values(ValueDefs),
    /// The named bits of a set.
    Bits(BitDefs),
}

/// What each type of a schema lists, in schema order.
pub type Listings = List<Listing>;

fn listing_of(alloc: Global, kind: &TypeKind) -> Result<Listing, AllocError>
    ensures { IfOk result (λ listing. listing ≡ listing_of kind.now) }
{
    match kind {
        TypeKind::Enum { values, .. } => Ok(Listing::Values(values.copy(alloc)?)),
        TypeKind::Set { bits, .. } => Ok(Listing::Bits(bits.copy(alloc)?)),
        TypeKind::Number { .. } | TypeKind::Composite { .. } => Ok(Listing::Nothing),
    }
}

/// What each of some types lists.
pub fn listings_of(alloc: Global, types: &[TypeDef]) -> Result<Listings, AllocError>
    ensures { IfOk result (λ listings. listings ≡ listings_of types.now) }
{
    let mut listings = Listings::new(alloc);
    for t in types {
        listings.push(listing_of(alloc, &t.kind)?)?;
    }
    Ok(listings)
}
