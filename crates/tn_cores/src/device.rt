//! The devices that a session can agree on.

ghost use Rattle.std.specs.Prelude.{◌≡◌, ◌≤◌, ◌↔◌, IfSome, IsSome, Some, length};
ghost use Rattle.tn_cores.specs.Devices.{name_of, name_in, model_digit, alternate_of, sizes_of, device_of, is_name, IsDeviceName};
ghost use Rattle.tn_cores.specs.Devices.{fits, fitting, is_device_mode};

use arrayvec::ArrayVec;
use ds_codec::{Geometry, Mode, Size};

/// The name of a device: at most 12 bytes.
pub type DeviceName = ArrayVec<u8, 12>;

/// The model of a 3278 or 3279 display, which gives its alternate size (GA23-0059, "Screen sizes").
#[derive(Clone, Copy, Debug, PartialEq, Eq)]
pub enum ScreenModel {
    /// Model 2: 24 rows of 80.
    Two,
    /// Model 3: 32 rows of 80.
    Three,
    /// Model 4: 43 rows of 80.
    Four,
    /// Model 5: 27 rows of 132.
    Five,
}

impl ScreenModel {
    /// The model's digit, in ASCII.
    fn digit(self) -> u8
        ensures { result ≡ model_digit self }
    {
        match self {
            ScreenModel::Two => b'2',
            ScreenModel::Three => b'3',
            ScreenModel::Four => b'4',
            ScreenModel::Five => b'5',
        }
    }

    /// The alternate size.
    fn alternate(self) -> Size
        ensures { result ≡ alternate_of self }
    {
        match self {
            ScreenModel::Two => Size { rows: 24, cols: 80 },
            ScreenModel::Three => Size { rows: 32, cols: 80 },
            ScreenModel::Four => Size { rows: 43, cols: 80 },
            ScreenModel::Five => Size {
                rows: 27,
                cols: 132,
            },
        }
    }
}

/// A display, as its name tells it (RFC 1340, "Terminal type names"; RFC 2355, section 7.1).
#[derive(Clone, Copy, Debug, PartialEq, Eq)]
pub struct Device {
    /// The model.
    pub model: ScreenModel,
    /// Whether it takes the extended data stream, `-E` in its name.
    pub extended: bool,
}

const DEVICES: [Device; 8] = [
    Device {
        model: ScreenModel::Two,
        extended: false,
    },
    Device {
        model: ScreenModel::Three,
        extended: false,
    },
    Device {
        model: ScreenModel::Four,
        extended: false,
    },
    Device {
        model: ScreenModel::Five,
        extended: false,
    },
    Device {
        model: ScreenModel::Two,
        extended: true,
    },
    Device {
        model: ScreenModel::Three,
        extended: true,
    },
    Device {
        model: ScreenModel::Four,
        extended: true,
    },
    Device {
        model: ScreenModel::Five,
        extended: true,
    },
];

impl Device {
    /// The device that these bytes name: `IBM-3278-` or `IBM-3279-`, a model 2 to 5, and `-E` or not, letters of either
    /// case.
    pub fn from_name(name: &[u8]) -> Option<Device>
        ensures named { IfSome result (IsDeviceName name.now) }
        ensures only { (device : Device) → IsDeviceName name.now device → result ≡ Some device }
        ensures short { IfSome result (λ device. length name.now ≤ 12) }
        ensures exact { result ≡ device_of name.now }
    {
        Device::first_named(name)
    }

    #[tactic(auto, unfolding(crate::specs::Devices::device_of))]
    fn first_named(name: &[u8]) -> Option<Device>
        ensures { result ≡ device_of name.now }
    {
        DEVICES.iter().copied().find(|device| device.is_named(name))
    }

    /// The device's name as it is written: `IBM-3278-`, the model, and `-E` where it is extended.
    #[tactic(auto, unfolding(crate::specs::Devices::name_of))]
    pub fn name(&self) -> DeviceName
        ensures value { result.items ≡ name_of self.now }
        ensures again { device_of result.items ≡ Some self.now }
    {
        self.name_in(b"IBM-3278-")
    }

    /// The device's name in a series of nine bytes.
    #[tactic(auto, unfolding(crate::specs::Devices::name_in))]
    fn name_in(&self, series: &[u8; 9]) -> DeviceName
        ensures { result.items ≡ name_in series.now self.now }
    {
        let mut name = DeviceName::new();
        name.try_extend_from_slice(series).unwrap();
        name.push(self.model.digit());
        if self.extended {
            name.try_extend_from_slice(b"-E").unwrap();
        }
        name
    }

    /// The device's two sizes: 24 by 80, and the model's own. Its addresses have 12 or 14 bits.
    pub fn geometry(&self) -> Geometry
        ensures { result ≡ sizes_of self.now.model }
    {
        let default = Size { rows: 24, cols: 80 };
        Geometry::new(default, self.model.alternate(), Mode::Bits14).unwrap()
    }

    /// Whether these bytes are a name of the device, in either series.
    fn is_named(&self, name: &[u8]) -> bool
        ensures { result ≡ is_name name.now self.now }
    {
        name.eq_ignore_ascii_case(&self.name_in(b"IBM-3278-"))
            || name.eq_ignore_ascii_case(&self.name_in(b"IBM-3279-"))
    }
}

fn is_device_mode(mode: Mode) -> bool
    ensures { result ≡ is_device_mode mode }
{
    match mode {
        Mode::Bits14 => true,
        Mode::Bits16 => false,
    }
}

/// Whether the addresses and both sizes are those of a device of this model.
#[tactic(auto, unfolding(crate::specs::Devices::fits))]
pub(crate) fn fits(geometry: &Geometry, model: ScreenModel) -> bool
    ensures { result ≡ fits geometry.now model }
{
    is_device_mode(geometry.mode())
        && geometry.default_size() == (Size { rows: 24, cols: 80 })
        && geometry.alternate_size() == model.alternate()
}

/// The device that these bytes name, where both its sizes are the geometry's.
#[tactic(auto, unfolding(crate::specs::Devices::fitting))]
pub(crate) fn fitting(geometry: &Geometry, name: &[u8]) -> Option<Device>
    ensures value { result ≡ fitting geometry.now name.now }
    ensures short { IfSome result (λ device. length name.now ≤ 12) }
{
    let device = Device::from_name(name)?;
    if fits(geometry, device.model) {
        Some(device)
    } else {
        None
    }
}
