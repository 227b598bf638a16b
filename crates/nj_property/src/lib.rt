//! Properties and conditions of a script: a [`Property`] is a number of one or two bytes of working
//! memory, and a [`Condition`] compares it with a number or with another property. The layout is
//! this project's own; memory is the console's 2,048 bytes at $0000 to $07FF (NESdev Wiki, "CPU
//! memory map").
#![tactic(auto)]

ghost use Rattle.std.specs.Prelude.{◌≡◌, ◌+◌, ◌≤◌, ◌<◌, length, slice_range, All, pos, neg_ℤ, ◌≤ℤ◌};
ghost use Rattle.nj_property.specs.Property.{IsPlaced, size_of, value_of, little_endian};
ghost use Rattle.nj_property.specs.Condition.{IsPlacedCondition, IsPlacedSide, side_of, holds_in, all_hold_in};

/// How the bytes of a property are read: one byte or two with the low byte first, unsigned or in
/// two's complement.
#[derive(Clone, Copy)]
pub enum Kind {
    U8,
    I8,
    U16,
    I16,
}

impl Kind {
    /// How many bytes a number of this kind takes.
    pub fn size(self) -> u16
        ensures value { result ≡ size_of self }
        ensures within { result ≤ 2 }
    {
        match self {
            Kind::U8 | Kind::I8 => 1,
            Kind::U16 | Kind::I16 => 2,
        }
    }
}

/// A number in working memory: its first byte's address, and how its bytes are read.
#[derive(Clone, Copy)]
pub struct Property {
    pub at: u16,
    pub kind: Kind,
}

impl Property {
    /// The number that stands in the 2,048 bytes of working memory.
    #[tactic(auto, unfolding(crate::specs::Property::value_of))]
    pub fn value(&self, ram: &[u8]) -> i32
        requires ram { length ram.now ≡ 2048 }
        requires placed { IsPlaced self.now }
        ensures value { result ≡ value_of self.now ram.now }
        ensures low { neg_ℤ (pos 32768) ≤ℤ result }
        ensures high { result ≤ℤ pos 65535 }
    {
        let at = self.at as usize;
        match self.kind {
            Kind::U8 => byte(ram, at) as i32,
            Kind::I8 => byte(ram, at).cast_signed() as i32,
            Kind::U16 => word(ram, at) as i32,
            Kind::I16 => word(ram, at).cast_signed() as i32,
        }
    }
}

/// How a condition compares its sides.
#[derive(Clone, Copy)]
pub enum Cmp {
    Eq,
    Ne,
    Lt,
    Le,
    Gt,
    Ge,
}

/// The right side of a condition.
#[derive(Clone, Copy)]
pub enum Side {
    Number { value: i32 },
    Other { property: Property },
}

/// A comparison that holds or fails in working memory.
#[derive(Clone, Copy)]
pub struct Condition {
    pub left: Property,
    pub op: Cmp,
    pub right: Side,
}

impl Condition {
    /// Whether the condition holds in the 2,048 bytes of working memory.
    #[tactic(auto, unfolding(crate::specs::Condition::holds_in))]
    pub fn holds(&self, ram: &[u8]) -> bool
        requires ram { length ram.now ≡ 2048 }
        requires placed { IsPlacedCondition self.now }
        ensures { result ≡ holds_in ram.now self.now }
    {
        let left = self.left.value(ram);
        let right = self.right.value(ram);
        match self.op {
            Cmp::Eq => left == right,
            Cmp::Ne => left != right,
            Cmp::Lt => left < right,
            Cmp::Le => left <= right,
            Cmp::Gt => left > right,
            Cmp::Ge => left >= right,
        }
    }
}

impl Side {
    /// The number on this side, in the 2,048 bytes of working memory.
    pub fn value(&self, ram: &[u8]) -> i32
        requires ram { length ram.now ≡ 2048 }
        requires placed { IsPlacedSide self.now }
        ensures { result ≡ side_of self.now ram.now }
    {
        match self {
            Side::Number { value } => *value,
            Side::Other { property } => property.value(ram),
        }
    }
}

/// Whether each of the conditions holds in the 2,048 bytes of working memory. No conditions hold
/// always.
#[tactic(auto, unfolding(crate::specs::Condition::all_hold_in))]
pub fn all_hold(conditions: &[Condition], ram: &[u8]) -> bool
    requires ram { length ram.now ≡ 2048 }
    requires placed { All IsPlacedCondition conditions.now }
    ensures { result ≡ all_hold_in ram.now conditions.now }
{
    conditions.iter().all(|condition| condition.holds(ram))
}

fn byte(ram: &[u8], at: usize) -> u8
    requires { at < length ram.now }
    ensures { result ≡ little_endian (slice_range ram.now at (at + 1)) }
{
    ram[at]
}

fn word(ram: &[u8], at: usize) -> u16
    requires { at + 1 < length ram.now }
    ensures { result ≡ little_endian (slice_range ram.now at (at + 2)) }
{
    u16::from(ram[at]) + 256 * u16::from(ram[at + 1])
}

#[cfg(test)]
mod tests {
    use super::*;

    // The bytes $FE and $80 stand at 2,046 and 2,047, and 0 before them.
    #[test]
    fn kinds_and_comparisons(rt: HostRuntime) {
        let mut ram = [0u8; 2048];
        ram[2046] = 0xFE;
        ram[2047] = 0x80;
        let kinds = [
            (Kind::U8, 254),
            (Kind::I8, -2),
            (Kind::U16, 33022),
            (Kind::I16, -32514),
        ];
        for (kind, value) in kinds {
            let property = Property { at: 2046, kind };
            assert_eq!(rt; property.value(&ram), value);
        }
        let left = Property {
            at: 2046,
            kind: Kind::I8,
        };
        let zero = Property {
            at: 0,
            kind: Kind::U16,
        };
        let below = Condition {
            left,
            op: Cmp::Lt,
            right: Side::Other { property: zero },
        };
        let equal = Condition {
            left,
            op: Cmp::Eq,
            right: Side::Number { value: 254 },
        };
        assert!(rt; all_hold(&[below], &ram));
        assert!(rt; !all_hold(&[below, equal], &ram));
        assert!(rt; all_hold(&[], &ram));
    }
}
