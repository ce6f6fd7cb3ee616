//! The order of a schema's names, by which a name is found in a wide schema.

ghost use Rattle.std.specs.Prelude.{◌≡◌, ◌<◌, All, IfOk};
ghost use Rattle.pipe_schema.specs.Schema.{place_of, IsSchema};
ghost use Rattle.pipe_schema.specs.NameOrder.{IsNameOrder, IsNamePlace, OrdersIfWide, all_places, places_in_pairs};

use crate::field::Field;
use std::alloc::{AllocError, Global};
use std::cmp::Ordering;

/// How many fields a schema may have that has no order: so few names are found faster one after another.
const NARROW: usize = 16;

/// The name and the place of each field.
fn names_and_places(alloc: Global, fields: &[Field]) -> Result<Vec<(&str, usize)>, AllocError>
    ensures names { IfOk result (λ pairs. All (IsNamePlace fields.now) pairs.items) }
    ensures places { IfOk result (λ pairs. places_in_pairs pairs.items ≡ all_places fields.now) }
{
    let mut pairs = Vec::with_capacity(alloc, fields.len())?;
    for i in 0..fields.len() {
        pairs.push((fields[i].name.as_str(), i))?;
    }
    Ok(pairs)
}

/// The places of some pairs.
fn places(alloc: Global, pairs: &[(&str, usize)]) -> Result<Vec<usize>, AllocError>
    ensures { IfOk result (λ places. places.items ≡ places_in_pairs pairs.now) }
{
    let mut places = Vec::with_capacity(alloc, pairs.len())?;
    for pair in pairs {
        places.push(pair.1)?;
    }
    Ok(places)
}

/// The places of the fields in the order of their names.
fn name_order(alloc: Global, fields: &[Field]) -> Result<Vec<usize>, AllocError>
    ensures { IfOk result (λ order. IsNameOrder fields.now order.items) }
{
    let mut pairs = names_and_places(alloc, fields)?;
    pairs.sort_unstable();
    Ok(places(alloc, pairs.as_slice())?)
}

/// The order of the fields of a wide schema, and none of a narrow one.
pub(crate) fn order_if_wide(alloc: Global, fields: &[Field]) -> Result<Vec<usize>, AllocError>
    ensures { IfOk result (λ order. OrdersIfWide fields.now order.items) }
{
    if fields.len() <= NARROW {
        Ok(Vec::new(alloc))
    } else {
        Ok(name_order(alloc, fields)?)
    }
}

/// Where the field of a name stands, by halving the order.
fn find_in_order(fields: &[Field], order: &[usize], name: &[u8]) -> Option<usize>
    requires schema { IsSchema fields.now }
    requires order { IsNameOrder fields.now order.now }
    ensures { result ≡ place_of name.now fields.now }
{
    let mut low = 0;
    let mut high = order.len();
    while low < high {
        let middle = low + (high - low) / 2;
        let place = order[middle];
        match fields[place].name.as_bytes().cmp(&name) {
            Ordering::Less => low = middle + 1,
            Ordering::Greater => high = middle,
            Ordering::Equal => return Some(place),
        }
    }
    None
}

/// Where the first field of a name stands, by one look at each.
fn find_in_turn(fields: &[Field], name: &[u8]) -> Option<usize>
    ensures { result ≡ place_of name.now fields.now }
{
    for i in 0..fields.len() {
        if fields[i].name.as_bytes() == name {
            return Some(i);
        }
    }
    None
}

/// Where the field of a name stands.
pub(crate) fn find(fields: &[Field], order: &[usize], name: &[u8]) -> Option<usize>
    requires schema { IsSchema fields.now }
    requires order { OrdersIfWide fields.now order.now }
    ensures { result ≡ place_of name.now fields.now }
{
    if order.is_empty() {
        find_in_turn(fields, name)
    } else {
        find_in_order(fields, order, name)
    }
}
