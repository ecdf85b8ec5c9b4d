// The setting of a run, by its first argument.
ghost use Rattle.std.specs.Prelude.{◌≡◌};
ghost use Rattle.record.specs.Settings.{setting_of};

use record::Setting;

// The first argument of a run.
#[derive(Drop)]
pub struct Argument {}

impl Argument {
    // As many bytes as are looked at: a longer one is not `back`.
    pub const BYTES: usize = 4;
}

// Backward striking is on exactly if the first argument is `back`.
// No `From<&[u8]>`: the type is another crate's, and any text but one gives the plain setting, which `into` would not say.
pub fn setting_of(argument: &[u8]) -> Setting
    ensures { result ≡ setting_of argument.now }
{
    if argument == b"back".as_slice() {
        Setting::Back
    } else {
        Setting::Plain
    }
}
