// Maps of 64 flags.
ghost use Rattle.std.specs.Prelude.{◌≡◌, ◌<◌, ◌≤◌};
ghost use Rattle.model.specs.Maps.{has, with_flag_set};

// Whether flag `s` of the map is set; there is no flag past 63.
pub(crate) fn flag(map: u64, s: usize) -> bool
    ensures { result ≡ has map s }
{
    s < 64 && (map >> s) & 1 == 1
}

// The map with flag `s` set; there is no flag past 63.
pub fn with_flag(map: u64, s: usize) -> u64
    ensures { ((s < 64 → result ≡ with_flag_set map s)) × ((64 ≤ s → result ≡ map)) }
{
    if s < 64 { map | 1 << s } else { map }
}
