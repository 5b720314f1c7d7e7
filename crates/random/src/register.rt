// The random register of 7.18.3.2.
ghost use Rattle.std.specs.Prelude.{◌≡◌, ◌/◌, ◌^◌, bit_xor, fold};
ghost use Rattle.frame.specs.Refusal.{numbered};
ghost use Rattle.random.specs.Register.{step, step_of};

use frame::Refusal;

#[repr(C)]
#[derive(Clone, Copy, Debug, PartialEq, Eq)]
pub struct RandomRegister {
    pub state: u16,
}

// A draw, with the register after it.
#[derive(Clone, Copy, Debug, PartialEq, Eq)]
pub struct Stepped {
    pub draw: Result<u32, Refusal>,
    pub register: RandomRegister,
}

impl RandomRegister {
    // The bits whose xor is the new bit.
    pub const TAPS: [u32; 4] = [0, 1, 3, 12];

    // The bit where the new bit enters.
    pub const ENTRY: u32 = 15;

    // The bits that it holds.
    pub const WIDTH: u32 = 16;

    // The register that holds the seed.
    pub fn new(seed: u16) -> Self
        ensures { result.state ≡ seed }
    {
        Self { state: seed }
    }

    // The taps' xor, at bit 0.
    fn tapped(r: u16) -> u16
        ensures { result ≡ fold (λ bit tap. bit_xor bit (r / 2 ^ tap)) 0 Self.TAPS }
    {
        Self::TAPS.iter().fold(0, |bit, tap| bit ^ (r >> tap))
    }

    // The top bits asked for of the register, which is stepped first. Refused, it stays as it was.
    pub fn next(&mut self, bits: u32) -> Result<u32, Refusal>
        ensures draw { numbered result ≡ (step self.old bits).draw }
        ensures register { self.new ≡ (step self.old bits).register }
    {
        frame::ask_bits(bits)?;
        let r = self.state;
        let bit = Self::tapped(r) & 1;
        self.state = (r >> 1) | (bit << Self::ENTRY);
        Ok(u32::from(self.state) >> (Self::WIDTH - bits))
    }

    // `next`, by value: the draw, with the register after it.
    pub fn stepped(mut self, bits: u32) -> Stepped
        ensures { step_of result ≡ step self bits }
    {
        let draw = self.next(bits);
        Stepped {
            draw,
            register: self,
        }
    }
}

// The first draw of the register that starts at the seed, and the register after it.
pub fn draw_from(seed: u16, bits: u32) -> Stepped
    ensures { step_of result ≡ step (record { state = seed }) bits }
{
    RandomRegister::new(seed).stepped(bits)
}
