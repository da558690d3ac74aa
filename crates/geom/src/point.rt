// Points and the plain operations on them, each rounded once, in the source's order.
ghost use Rattle.std.specs.Prelude.{◌≡◌};
ghost use Rattle.geom.specs.Point.{plus, minus, times, dot, len, dist, norm, perp, rotate, lerp, cross};

use leaves::quick::root;

#[derive(Clone, Copy)]
pub struct P {
    pub x: f64,
    pub y: f64,
}

impl P {
    // The source's `+`, `-` and `*`.
    pub fn plus(self, o: P) -> P
        ensures { result ≡ plus self o }
    {
        P {
            x: self.x + o.x,
            y: self.y + o.y,
        }
    }

    pub fn minus(self, o: P) -> P
        ensures { result ≡ minus self o }
    {
        P {
            x: self.x - o.x,
            y: self.y - o.y,
        }
    }

    pub fn times(self, s: f64) -> P
        ensures { result ≡ times self s }
    {
        P {
            x: self.x * s,
            y: self.y * s,
        }
    }

    pub fn dot(self, o: P) -> f64
        ensures { result ≡ dot self o }
    {
        self.x * o.x + self.y * o.y
    }

    // Document 01's length: the source's `hypot` rounds otherwise.
    pub fn len(self) -> f64
        ensures { result ≡ len self }
    {
        root(self.x * self.x + self.y * self.y)
    }

    pub fn dist(self, o: P) -> f64
        ensures { result ≡ dist self o }
    {
        self.minus(o).len()
    }

    pub fn norm(self) -> P
        ensures { result ≡ norm self }
    {
        self.towards(self.len())
    }

    // The same where the length is known, which saves a root.
    pub fn towards(self, l: f64) -> P
        requires { l ≡ len self }
        ensures { result ≡ norm self }
    {
        if l > 1e-12 {
            return self.times(1.0 / l);
        }
        P { x: 0.0, y: 0.0 }
    }

    pub fn perp(self) -> P
        ensures { result ≡ perp self }
    {
        P {
            x: -self.y,
            y: self.x,
        }
    }

    pub fn rotate(self, cos: f64, sin: f64) -> P
        ensures { result ≡ rotate self cos sin }
    {
        P {
            x: self.x * cos - self.y * sin,
            y: self.x * sin + self.y * cos,
        }
    }

    pub fn lerp(self, o: P, t: f64) -> P
        ensures { result ≡ lerp self o t }
    {
        self.plus(o.minus(self).times(t))
    }
}

pub fn cross(a: P, b: P) -> f64
    ensures { result ≡ cross a b }
{
    a.x * b.y - a.y * b.x
}
