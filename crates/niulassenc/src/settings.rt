// The settings image: saving an endpoint's configuration as bytes, and making an endpoint of such bytes.
ghost use Rattle.std.specs.Prelude.{◌≡◌};
ghost use Rattle.endpoint.specs.Config.{config_of};
ghost use Rattle.image.specs.Answer.{save_values_of};
ghost use Rattle.image.specs.Load.{load_of};
ghost use Rattle.image.specs.Save.{save_of};
ghost use Rattle.niulassenc.specs.Answer.{saving_of, started_of_load};

use crate::answer::Saving;
use crate::config::Started;
use endpoint::config::Endpoint;
use image::code::load_code;
use image::load::load;
use image::save::save;

// Saves the endpoint's configuration as an image at the front of the output. The endpoint is only read; its pending frames are no part of the image.
pub fn niulassenc_save(endpoint: &Endpoint, output: &mut [u8]) -> Saving
    ensures { (result ≡ saving_of (save_values_of (save_of (config_of endpoint.now) output.old).answer))
        × (output.new ≡ (save_of (config_of endpoint.now) output.old).output) }
{
    save(endpoint, output).into()
}

// Makes an endpoint of an image. A bad one gives the endpoint of a refused start, with every number 0.
pub fn niulassenc_load(image: &[u8]) -> Started
    ensures { result ≡ started_of_load (load_of image.now) }
{
    let loaded = load(image);
    let code = load_code(loaded.answer);
    let endpoint = loaded.endpoint;
    Started { endpoint, code }
}
