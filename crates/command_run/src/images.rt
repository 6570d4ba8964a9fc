//! The volumes after a run.

ghost use Rattle.std.specs.Prelude.{◌≡◌, [], IfOk, IfErr};
ghost use Rattle.command_run.specs.Headline.{image_in};
ghost use Rattle.command_run.specs.Printed.{ImagesPushed, ImageTorn};
ghost use Rattle.config_text.specs.Valid.{IsValid};
ghost use Rattle.loader.specs.Configuration.{configuration};
ghost use Rattle.machine.specs.Banks.{machine_of};
ghost use Rattle.volume_image.specs.Images.{IsMadeFor};

use config_text::Config;
use end_volumes::volume_after;
use host_ports::{Host, push_whole};
use loader::names_volume;
use machine::Machine;
use volume_image::Image;
use words_layout::PlainWords;

/// The numbers of volumes, and of their ports, are below this.
const PORTS: u8 = 5;

/// Pushes the image of each volume that the configuration names to its port, in order. It takes no memory. The port of the
/// push that failed, if one did.
pub fn push_volumes<H: Host>(
    host: &mut H,
    config: &Config,
    machine: &Machine<PlainWords>,
    image: &mut Image,
) -> Result<(), u8>
    requires valid { IsValid config.now }
    requires table { machine.now.shared.table ≡ config.now.table }
    requires image { IsMadeFor config.now.table image.old }
    ensures pushed { IfOk result (λ x. ImagesPushed 5 config.now (image_in (configuration config.now []) (machine_of machine.now)) (H.ports host.old) (H.ports host.new)) }
    ensures torn { IfErr result (λ port. ImageTorn port config.now (image_in (configuration config.now []) (machine_of machine.now)) (H.ports host.old) (H.ports host.new)) }
{
    for port in 1..PORTS {
        if names_volume(config, port) {
            volume_after(machine, config, port, image);
            match push_whole(host, port, image.bytes()) {
                Ok(()) => {}
                Err(_) => return Err(port),
            }
        }
    }
    Ok(())
}
