// The roles of a name, by the table of operators. A name is looked for at one place of the table for each role: its bytes say which.
ghost use Rattle.std.specs.Prelude.{◌≡◌, ◌<◌, ◌-◌, take, drop};
ghost use Rattle.reader.specs.Ops.{operators};
ghost use Rattle.reader.specs.Roles.{roles_of};
ghost use Rattle.reader.specs.Names.{Part, spelt, entry_at, prefix_in, infix_in, PrefixPlace, InfixPlace, starts_operator};

use crate::operators::{Operator, OperatorKind, entry};
use crate::roles::{Infix, NO_ROLES, Prefix, Roles};

// The bytes of a name of one to three, spaces after a shorter one.
#[derive(Clone, Copy, PartialEq, Eq)]
pub struct ShortName {
    pub first: u8,
    pub second: u8,
    pub third: u8,
}

const MINUS: ShortName = ShortName {
    first: b'-',
    second: b' ',
    third: b' ',
};

// The roles of the name text[from..to]. No operator has more than three bytes, or ends with a space.
pub(crate) fn roles_of(text: &[u8], from: usize, to: usize) -> Roles
    requires { Part text.now from to }
    ensures { result ≡ roles_of operators (take (to - from) (drop from text.now)) }
{
    match to - from {
        1 => short_roles(ShortName {
            first: text[from],
            second: b' ',
            third: b' ',
        }),
        2 => {
            let second = text[from + 1];
            if second == b' ' {
                return NO_ROLES;
            }
            short_roles(ShortName {
                first: text[from],
                second,
                third: b' ',
            })
        }
        3 => {
            let third = text[from + 2];
            if third == b' ' {
                return NO_ROLES;
            }
            short_roles(ShortName {
                first: text[from],
                second: text[from + 1],
                third,
            })
        }
        _ => NO_ROLES,
    }
}

fn short_roles(name: ShortName) -> Roles
    ensures { result ≡ roles_of operators (spelt name) }
{
    if !starts_operator(name.first) {
        return NO_ROLES;
    }
    let minus = name == MINUS;
    let prefix = prefix_at(prefix_place(name), name);
    let infix = infix_at(infix_place(name), name);
    Roles {
        minus,
        prefix,
        infix,
    }
}

// Of the small letters only those of `is`, `mod` and `rem`.
fn starts_operator(first: u8) -> bool
    ensures { result ≡ starts_operator first }
{
    match first {
        b'i' | b'm' | b'r' => true,
        _ => first < b'a',
    }
}

// Where the table is looked at for a prefix operator. A place that serves no name is 0, an infix operator's: the entry there gives no prefix
// role, so no Option is needed.
fn prefix_place(name: ShortName) -> usize
    ensures { PrefixPlace name result }
{
    let slot = 2 * (name.first as usize) + 3 * (name.second as usize);
    PREFIXES[slot % 24] as usize
}

// A table and no map, which would need a heap. Of the names of infix operators only `**` falls into a slot of these.
const PREFIXES: [u8; 24] = [
    0, 7, 0, 0, 0, 0, 0, 0, 0, 0, 0, 2, 0, 0, 0, 0, 38, 0, 37, 0, 0, 3, 0, 0,
];

// Where the table is looked at for an infix operator, in the same way.
fn infix_place(name: ShortName) -> usize
    ensures { InfixPlace name result }
{
    let slot = (name.first as usize) + 7 * (name.second as usize) + 9 * (name.third as usize);
    INFIXES[slot / 8 % 8][slot % 8] as usize
}

const INFIXES: [[u8; 8]; 8] = [
    [33, 21, 0, 0, 12, 27, 0, 13],
    [10, 23, 31, 0, 0, 0, 0, 0],
    [34, 0, 14, 26, 0, 0, 1, 15],
    [30, 0, 0, 0, 0, 16, 36, 0],
    [0, 0, 0, 0, 0, 0, 19, 9],
    [0, 0, 28, 24, 11, 25, 17, 29],
    [35, 0, 0, 0, 0, 0, 0, 0],
    [18, 0, 32, 4, 20, 8, 22, 5],
];

// The place of an infix operator, where no name has a prefix role.
const NO_PREFIX: usize = 0;

// The role that the table's entry at a place gives to a name.
fn prefix_at(place: usize, name: ShortName) -> Option<Prefix>
    requires { place < 39 }
    ensures { result ≡ prefix_in (entry_at place) (spelt name) }
{
    if place == NO_PREFIX {
        return None;
    }
    let Operator(first, second, third, kind, priority) = entry(place);
    let named = ShortName {
        first,
        second,
        third,
    };
    if name != named {
        return None;
    }
    match kind {
        OperatorKind::Fx => Some(Prefix::Fx(priority)),
        OperatorKind::Fy => Some(Prefix::Fy(priority)),
        _ => None,
    }
}

fn infix_at(place: usize, name: ShortName) -> Option<Infix>
    requires { place < 39 }
    ensures { result ≡ infix_in (entry_at place) (spelt name) }
{
    let Operator(first, second, third, kind, priority) = entry(place);
    let named = ShortName {
        first,
        second,
        third,
    };
    if name != named {
        return None;
    }
    match kind {
        OperatorKind::Xfx => Some(Infix::Xfx(priority)),
        OperatorKind::Xfy => Some(Infix::Xfy(priority)),
        OperatorKind::Yfx => Some(Infix::Yfx(priority)),
        _ => None,
    }
}
