// One thing for each axis of the volume.
ghost use Rattle.std.specs.Prelude.{◌≡◌, ◌||◌};
ghost use Rattle.ray.specs.Side.{of_side, with_side};

#[derive(Clone, Copy)]
pub enum Side {
    X,
    Y,
    Z,
}

#[derive(Clone, Copy, PartialEq, Eq)]
pub struct Axes<T> {
    pub x: T,
    pub y: T,
    pub z: T,
}

impl<T: Copy> Axes<T> {
    pub fn new(x: T, y: T, z: T) -> Axes<T>
        ensures { result ≡ record { x = x; y = y; z = z } }
    {
        Axes { x, y, z }
    }

    pub fn of(self, side: Side) -> T
        ensures { result ≡ of_side self side }
    {
        match side {
            Side::X => self.x,
            Side::Y => self.y,
            Side::Z => self.z,
        }
    }

    // These with another on one side.
    pub fn with(self, side: Side, other: T) -> Axes<T>
        ensures { result ≡ with_side self side other }
    {
        match side {
            Side::X => Axes { x: other, ..self },
            Side::Y => Axes { y: other, ..self },
            Side::Z => Axes { z: other, ..self },
        }
    }

    // The same made of each.
    pub fn map<U: Copy, F: Fn(T) -> U>(self, f: F) -> Axes<U>
        requires on_x { F.pre f self.x }
        requires on_y { F.pre f self.y }
        requires on_z { F.pre f self.z }
        ensures x { F.post f self.x result.x }
        ensures y { F.post f self.y result.y }
        ensures z { F.post f self.z result.z }
    {
        Axes {
            x: f(self.x),
            y: f(self.y),
            z: f(self.z),
        }
    }

    // Each beside the other's.
    pub fn zip<U: Copy>(self, other: Axes<U>) -> Axes<(T, U)>
        ensures { result ≡ record { x = (self.x, other.x); y = (self.y, other.y); z = (self.z, other.z) } }
    {
        Axes {
            x: (self.x, other.x),
            y: (self.y, other.y),
            z: (self.z, other.z),
        }
    }
}

impl Axes<bool> {
    pub fn any(self) -> bool
        ensures { result ≡ (self.x || (self.y || self.z)) }
    {
        self.x || self.y || self.z
    }
}
