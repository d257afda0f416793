// Why there is no image.
use abuf_frame::Full;
use abuf_mtl::MtlFault;
use abuf_num::NoMemory;
use abuf_obj::ObjFault;
use abuf_scene::SceneFault;

/// Why a scene gives no image.
#[derive(Drop)]
pub enum NoImage {
    /// The scene isn't read.
    Scene(ObjFault),
    /// The library isn't read.
    Library(MtlFault),
    /// A face has a material that the library lacks.
    Material(SceneFault),
    /// There are more fragments than nodes.
    Full(Full),
    /// Memory ran out while the image was drawn.
    Memory,
}

impl From<ObjFault> for NoImage {
    ghost use Rattle.std.specs.Prelude.{◌≡◌};
    ghost use Rattle.abuf_uses.specs.declared.fault.NoImage.TheVariants.{Scene};

    ghost from_gives = { λ fault why. why ≡ Scene fault };

    fn from(fault: ObjFault) -> Self {
        NoImage::Scene(fault)
    }
}

impl From<MtlFault> for NoImage {
    ghost use Rattle.std.specs.Prelude.{◌≡◌};
    ghost use Rattle.abuf_uses.specs.declared.fault.NoImage.TheVariants.{Library};

    ghost from_gives = { λ fault why. why ≡ Library fault };

    fn from(fault: MtlFault) -> Self {
        NoImage::Library(fault)
    }
}

impl From<SceneFault> for NoImage {
    ghost use Rattle.std.specs.Prelude.{◌≡◌};
    ghost use Rattle.abuf_uses.specs.declared.fault.NoImage.TheVariants.{Material};

    ghost from_gives = { λ fault why. why ≡ Material fault };

    fn from(fault: SceneFault) -> Self {
        NoImage::Material(fault)
    }
}

impl From<NoMemory> for NoImage {
    ghost use Rattle.std.specs.Prelude.{◌≡◌};
    ghost use Rattle.abuf_uses.specs.declared.fault.NoImage.TheVariants.{Memory};

    ghost from_gives = { λ _ why. why ≡ Memory };

    fn from(_: NoMemory) -> Self {
        NoImage::Memory
    }
}
