// The next call of a list, from a generator with a fixed seed.
use answer::big_endian::value;
use coordinates::base::{Degrees, Radians};
use coordinates::coords::Face;
use coordinates::lonlat::LonLat;
use coordinates::spherical::Spherical;
use coordinates::vec2::Vec2;
use replay_call::Call;
use replay_call::nearby::Nearby;
use replay_call::steps::Registers;
use stores::show::StoreKind;

// A number from -1.125 to 1.125, so that some lie beyond a range.
pub fn around(r: u64) -> f64 {
    2.25 * value(0x3ff0_0000_0000_0000 + r / 4096) - 3.375
}

// A generator with its seed.
#[derive(Drop)]
pub struct Generator(pub u64);

impl Generator {
    // Marsaglia's xorshift of 64 bits.
    pub fn next(&mut self) -> u64 {
        let a = self.0 ^ (self.0 << 13);
        let b = a ^ (a >> 7);
        let c = b ^ (b << 17);
        self.0 = c;
        c
    }

    // Once in so many draws, on average.
    fn once_in(&mut self, n: u64) -> bool {
        self.next().is_multiple_of(n)
    }

    // Mostly a number within the range from -limit to limit or not far beyond; or an end of the range, a
    // zero, or any float at all.
    fn number(&mut self, limit: f64) -> f64 {
        let r = self.next();
        match r % 64 {
            0 => value(self.next()),
            1 => limit,
            2 => -limit,
            3 => -0.0,
            _ => around(r) * limit,
        }
    }

    fn face(&mut self) -> Face {
        // half of the points lie near the face
        let limit = if self.once_in(2) { 4.0 } else { 0.75 };
        Face(Vec2 {
            x: self.number(limit),
            y: self.number(limit),
        })
    }

    fn spherical(&mut self) -> Spherical {
        Spherical {
            theta: Radians(self.number(8.0)),
            phi: Radians(self.number(8.0)),
        }
    }

    fn lon_lat(&mut self) -> LonLat {
        LonLat {
            longitude: Degrees(self.number(360.0)),
            latitude: Degrees(self.number(90.0)),
        }
    }

    // One of the twelve, or now and then one that there is not.
    fn origin(&mut self) -> u8 {
        let r = self.next();
        if r % 32 == 0 {
            return (r / 32 % 256) as u8;
        }
        (r / 32 % 12) as u8
    }

    // One slot in four is of the face store. Some lie beyond the store's.
    fn slot(&mut self) -> (StoreKind, usize) {
        if self.once_in(4) {
            return (StoreKind::Face, (self.next() % 32) as usize);
        }
        (StoreKind::Sphere, (self.next() % 256) as usize)
    }

    fn byte(&mut self) -> u8 {
        (self.next() / 256 % 256) as u8
    }

    // How many positions: 0 to 9.
    fn few(&mut self) -> u8 {
        (self.next() / 16 % 10) as u8
    }

    // Positions that mostly lie on one face, or far from each other; now and then with another number of results.
    fn nearby(&mut self) -> Nearby {
        let limit = if self.once_in(4) { 40.0 } else { 0.5 };
        let count = self.few();
        let room = if self.once_in(16) { self.few() } else { count };
        Nearby {
            start: self.lon_lat(),
            stride: LonLat {
                longitude: Degrees(self.number(limit)),
                latitude: Degrees(self.number(limit)),
            },
            count,
            room,
        }
    }

    // Nothing, place, unplace, or now and then any byte.
    fn command(&mut self) -> u8 {
        let r = self.next();
        if r % 16 == 0 {
            return self.byte();
        }
        (r / 16 % 3) as u8
    }

    // Any signed number of 32 bits, or one from -900,000,000 on to below 900,000,000: a latitude, or a number of a face point.
    fn input(&mut self) -> u32 {
        let r = self.next() / 2 % 4294967296;
        if self.once_in(4) {
            return r as u32;
        }
        ((r % 1_800_000_000) as i32 - 900_000_000).cast_unsigned()
    }

    fn registers(&mut self) -> Registers {
        Registers {
            command: self.command(),
            status: self.byte(),
            mask: self.byte(),
            origin: self.origin(),
            first: self.input(),
            second: self.input(),
            others: self.byte(),
        }
    }

    // Open once in so many calls, or never for 0; else one of the others.
    pub fn draw(&mut self, opens: u64) -> Call {
        if opens > 0 && self.once_in(opens) {
            return Call::Open;
        }
        match self.next() % 9 {
            0 => Call::Forward(self.spherical(), self.origin()),
            1 => Call::Inverse(self.face(), self.origin()),
            2 => Call::Place(self.lon_lat()),
            3 => Call::Unplace(self.face(), self.origin()),
            4 => {
                let (kind, slot) = self.slot();
                Call::Show(kind, slot)
            }
            5 => {
                let (kind, slot) = self.slot();
                Call::Ask(kind, slot)
            }
            6 => Call::Step(self.registers()),
            7 => Call::List(self.nearby()),
            _ => Call::Region(self.nearby()),
        }
    }
}
