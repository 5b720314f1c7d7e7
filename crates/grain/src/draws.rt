// The seed of a frame's grain, and the random register. Alike calls stand one by one, since no exported function is generic.
ghost use Rattle.std.specs.Prelude.{◌≡◌};
ghost use Rattle.random.specs.Seed.{seed};
ghost use Rattle.frame.specs.Refusal.{numbered};
ghost use Rattle.random.specs.Register.{step, step_of};
ghost use Rattle.grain.specs.Records.{of_draw, of_stepped, of_next};

use frame::Refusal;
use random::{RandomRegister, Stepped};

// A draw, as C has it: a refusal's number, and the bits beside it, since an exported record holds no enum.
#[repr(C)]
#[derive(Clone, Copy)]
pub struct DrawRecord {
    pub refusal: u32,
    pub value: u32,
}

// A draw, likewise as C has it, and the register after it.
#[repr(C)]
#[derive(Clone, Copy)]
pub struct StepRecord {
    pub refusal: u32,
    pub value: u32,
    pub after: RandomRegister,
}

impl From<Result<u32, Refusal>> for DrawRecord {
    ghost from_gives = { λ draw answer. answer ≡ of_draw (numbered draw) };

    fn from(draw: Result<u32, Refusal>) -> Self {
        match draw {
            Ok(value) => Self { refusal: 0, value },
            Err(refusal) => Self {
                refusal: refusal.into(),
                value: 0,
            },
        }
    }
}

impl From<Stepped> for StepRecord {
    ghost from_gives = { λ stepped answer. answer ≡ of_stepped (step_of stepped) };

    fn from(stepped: Stepped) -> Self {
        let DrawRecord { refusal, value } = stepped.draw.into();
        Self {
            refusal,
            value,
            after: stepped.register,
        }
    }
}

#[unsafe(no_mangle)]
pub extern "C" fn grain_seed_for(order_hint: u32) -> u16
    ensures { result ≡ seed order_hint }
{
    random::grain_seed_for(order_hint)
}

#[unsafe(no_mangle)]
pub extern "C" fn grain_random_new(seed: u16) -> RandomRegister
    ensures { result.state ≡ seed }
{
    RandomRegister::new(seed)
}

#[unsafe(no_mangle)]
pub extern "C" fn grain_random_step(register: RandomRegister, bits: u32) -> StepRecord
    ensures { result ≡ of_stepped (step register bits) }
{
    register.stepped(bits).into()
}

#[unsafe(no_mangle)]
pub extern "C" fn grain_random_next(register: &mut RandomRegister, bits: u32) -> DrawRecord
    ensures { (result, register.new) ≡ of_next (step register.old bits) }
{
    let stepped = register.stepped(bits);
    *register = stepped.register;
    stepped.draw.into()
}
