ghost use Rattle.std.specs.Prelude.{◌≡◌, false, is_nan};

pub mod height_band;

/// A lowest and a highest height, neither of them NaN.
#[derive(Clone, Copy)]
pub struct Band {
    lowest: f32,
    highest: f32,
    ghost low: { is_nan lowest ≡ false },
    ghost high: { is_nan highest ≡ false },
}

impl Band {
    /// The lowest height.
    pub fn lowest(&self) -> f32
        ensures { result ≡ self.now.lowest }
    {
        self.lowest
    }

    /// The highest height.
    pub fn highest(&self) -> f32
        ensures { result ≡ self.now.highest }
    {
        self.highest
    }
}
