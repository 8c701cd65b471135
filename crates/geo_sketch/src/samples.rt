//! Assignments at which statements are tried.

ghost use Rattle.std.specs.Prelude.{◌≡◌, ◌<◌, ◌*◌};
ghost use Rattle.geo_sketch.specs.Samples.{sample_value};
ghost use Rattle.geo_sketch.specs.declared.limits.TheConstants.{SAMPLE_COUNT, NUMBER_LIMIT};

/// The value of a parameter at a sample position, from -3 to 3.
pub fn sample_value(position: u32, parameter: u32) -> i64
    requires position { position < SAMPLE_COUNT }
    requires parameter { parameter < 2 * NUMBER_LIMIT }
    ensures { result ≡ sample_value position parameter }
{
    let square = (position + 1) * parameter * parameter;
    let sum = 31 * position + 17 * parameter + square + 5;
    i64::from(sum % 101 % 7) - 3
}
