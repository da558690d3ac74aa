// Broken outlines. Each calls the function of its name in `exports_other::mending`, which says what it does, and states its clauses.
ghost use Rattle.std.specs.Prelude.{◌≡◌};
ghost use Rattle.salvage.specs.Salvage.{outcome, salvage_outcome};
ghost use Rattle.exports_other.specs.Mendings.{salvaged};

#[unsafe(no_mangle)]
pub extern "C" fn beahcerot_salvage(
    corners: &[f64],
    ends: &[usize],
    keep: &mut [f64],
    stops: &mut [usize],
    places: &mut [usize],
    reasons: &mut [usize],
    count: &mut u64,
    dropped: &mut u64,
) -> u64
    ensures { outcome (salvaged result count.new dropped.new) keep.new stops.new places.new reasons.new ≡ salvage_outcome corners.now ends.now keep.old stops.old places.old reasons.old }
{
    exports_other::mending::beahcerot_salvage(
        corners, ends, keep, stops, places, reasons, count, dropped,
    )
}
