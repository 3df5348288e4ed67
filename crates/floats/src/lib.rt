// Vectors of floats by value, the one place where bits become floats and floats become bits, and the short test.
#![tactic(auto)]

ghost use Rattle.std.specs.Prelude.{◌≡◌};
ghost use Rattle.std.specs.Float.{binary64};
ghost use Rattle.std.specs.Float.Ieee.{of_bits, to_bits};
ghost use Rattle.floats.specs.Vectors.{minus3, dot3, minus2, dot2, vec3_of_bits};
ghost use Rattle.floats.specs.Short.{tolerance_of, limit_of, squared_length, short_or_long, length_said, short_test};

use refused::Refusal;

#[derive(Clone, Copy)]
pub struct Vec3 {
    pub x: f64,
    pub y: f64,
    pub z: f64,
}

#[derive(Clone, Copy)]
pub struct Vec2 {
    pub x: f64,
    pub y: f64,
}

impl Vec3 {
    // The vector of three bit patterns.
    pub fn of_bits(x: u64, y: u64, z: u64) -> Self
        ensures { result ≡ vec3_of_bits x y z }
    {
        Vec3 {
            x: float_of(x),
            y: float_of(y),
            z: float_of(z),
        }
    }

    // The difference, by component.
    pub fn minus(self, b: Vec3) -> Self
        ensures { result ≡ minus3 self b }
    {
        Vec3 {
            x: self.x - b.x,
            y: self.y - b.y,
            z: self.z - b.z,
        }
    }

    // x·x + y·y, then + z·z.
    pub fn dot(self, b: Vec3) -> f64
        ensures { result ≡ dot3 self b }
    {
        self.x * b.x + self.y * b.y + self.z * b.z
    }
}

impl Vec2 {
    // The difference, by component.
    pub fn minus(self, b: Vec2) -> Self
        ensures { result ≡ minus2 self b }
    {
        Vec2 {
            x: self.x - b.x,
            y: self.y - b.y,
        }
    }

    // x·x + y·y.
    pub fn dot(self, b: Vec2) -> f64
        ensures { result ≡ dot2 self b }
    {
        self.x * b.x + self.y * b.y
    }
}

// The float of a bit pattern; of any NaN's pattern, NaN, which from_bits does not take.
pub fn float_of(bits: u64) -> f64
    ensures { result ≡ of_bits binary64 bits }
{
    if 0x7FF0_0000_0000_0000 < bits % 0x8000_0000_0000_0000 {
        let zero = 0.0;
        return zero / zero;
    }
    f64::from_bits(bits)
}

// The bit pattern of a float; of NaN always the same, so that the bits are told by the value.
pub fn bits_of(x: f64) -> u64
    ensures { result ≡ to_bits binary64 x }
{
    if x != x {
        return 0x7FF8_0000_0000_0000;
    }
    f64::to_bits(x)
}

// The tolerance that a tol stands for.
fn tolerance(tol: f64, epsilon: f64) -> f64
    ensures { result ≡ tolerance_of tol epsilon }
{
    if tol < 0.0 { epsilon } else { tol }
}

// What the squared length has to be below.
fn limit(end_vert: i32, first_new_vert: i32, tol: f64, epsilon: f64) -> f64
    ensures { result ≡ limit_of end_vert first_new_vert tol epsilon }
{
    if end_vert < first_new_vert {
        tol * tol
    } else {
        epsilon * epsilon
    }
}

// A difference against the limit.
fn measured(delta: Vec3, limit: f64) -> Result<(), Refusal>
    ensures { length_said result ≡ short_or_long (squared_length delta) limit }
{
    let length = delta.dot(delta);
    if length < limit {
        Ok(())
    } else {
        Err(Refusal::Long(length, limit))
    }
}

// Whether the edge between two positions is short; where it is not, its squared length and the limit.
pub fn short_test(
    from: Vec3,
    to: Vec3,
    end_vert: i32,
    first_new_vert: i32,
    tol: f64,
    epsilon: f64,
) -> Result<(), Refusal>
    ensures { length_said result ≡ short_test from to end_vert first_new_vert tol epsilon }
{
    let tol = tolerance(tol, epsilon);
    let delta = to.minus(from);
    measured(delta, limit(end_vert, first_new_vert, tol, epsilon))
}
