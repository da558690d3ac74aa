// Broken outlines: the call answers document 01's number and stores how many corners it kept and dropped, none after a refusal.
ghost use Rattle.std.specs.Prelude.{◌≡◌};
ghost use Rattle.salvage.specs.Salvage.{outcome, salvage_outcome};
ghost use Rattle.exports_other.specs.Mendings.{salvaged};

#[unsafe(no_mangle)]
pub extern "C" fn beahcerot_salvage(
    corners: &[f64],
    ends: &[usize],
    keep: &mut [f64],
    stops: &mut [usize],
    places: &mut [usize],
    reasons: &mut [usize],
    count: &mut u64,
    dropped: &mut u64,
) -> u64
    ensures { outcome (salvaged result count.new dropped.new) keep.new stops.new places.new reasons.new ≡ salvage_outcome corners.now ends.now keep.old stops.old places.old reasons.old }
{
    match salvage::salvage(corners, ends, keep, stops, places, reasons) {
        Ok(c) => {
            *count = c.corners;
            *dropped = c.dropped;
            0
        }
        Err(e) => {
            *count = 0;
            *dropped = 0;
            u64::from(e)
        }
    }
}
