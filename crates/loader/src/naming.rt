//! Which volumes a configuration names.

ghost use Rattle.std.specs.Prelude.{◌≡◌};
ghost use Rattle.loader.specs.Records.{names_volume};

use config_text::Config;

/// Whether a class's pool names the volume of this number, which is 1 to 4 for a volume; 0 stands for none.
pub fn names_volume(config: &Config, number: u8) -> bool
    ensures { result ≡ names_volume config.now number }
{
    config
        .pools
        .as_slice()
        .iter()
        .any(|pool| pool.volume == number)
}
