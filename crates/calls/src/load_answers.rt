// What a load answers, by 01's numbers.
ghost use Rattle.std.specs.Prelude.{◌≡◌};
ghost use Rattle.store.specs.Loading.{load_number, load_value};

use store::load::LoadError;

// 01's number of what a load answered.
pub fn load_number(loaded: Result<(), LoadError>) -> u32
    ensures { result ≡ load_number loaded }
{
    match loaded {
        Ok(()) => 0,
        Err(LoadError::BadSizes) => 2,
        Err(LoadError::BadModule(_bad)) => 1,
    }
}

// The position of a bad module's bad word; else 0.
pub fn load_position(loaded: Result<(), LoadError>) -> usize
    ensures { result ≡ load_value loaded }
{
    match loaded {
        Ok(()) => 0,
        Err(LoadError::BadSizes) => 0,
        Err(LoadError::BadModule(bad)) => bad.0,
    }
}
