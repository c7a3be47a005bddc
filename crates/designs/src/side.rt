ghost use Rattle.std.specs.Prelude.{◌≡◌, ℕ, ◌≤◌};
ghost use Rattle.designs.specs.Sides.{read_size};
ghost use Rattle.designs.specs.Results.{on_ok};

use crate::fault::DesignFault;

// How many switches a side has: 1 to 24.
#[derive(Clone, Copy)]
pub struct SideSize {
    pub(crate) count: u8,
    ghost within: { (1 ≤ count) × (count ≤ 24) },
}

impl TryFrom<u8> for SideSize {
    type Error = DesignFault;

    ghost use Rattle.designs.specs.declared.side.SideSize.{SideSize as Size};

    ghost try_from_gives = { λ count r. on_ok (λ (s : Size). s.count) r ≡ read_size count };

    fn try_from(count: u8) -> Result<SideSize, DesignFault> {
        if (1..=24).contains(&count) {
            Ok(SideSize { count })
        } else {
            Err(DesignFault::Size)
        }
    }
}
