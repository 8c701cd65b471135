use crate::samples::write_sample;
use crate::values::name_values;
use geo_degree::Axis;
use geo_sketch::NoMemory;

/// The values of three parameters at the eight sample positions, each with its parameter.
#[test]
fn sample_values_by_their_parameters(rt: HostRuntime) -> Result<(), NoMemory> {
    let axes = [0, 1, 2].map(|param| Axis { param, degree: 1 });
    let mut values = [0; 3];
    for (position, expected) in [
        (0, [2, -1, -2]),
        (1, [-2, 3, -2]),
        (2, [1, 0, 2]),
        (7, [3, 0, -1]),
    ] {
        write_sample(&axes, position, &mut values);
        assert_eq!(rt; values, expected, "position {position}");
        let named = name_values(rt.alloc(), &axes, &values)?;
        assert_eq!(rt; named.len(), 3);
        assert_eq!(rt; named.get(1), Some((1, expected[1])), "position {position}");
    }
    Ok(())
}
