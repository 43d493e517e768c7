// The linear value of each byte, scaled by 10^8 (IEC 61966-2-1).
ghost use Rattle.std.specs.Prelude.{◌≡◌, ◌+◌, ◌*◌, ◌<◌, T};
ghost use Rattle.conversion.specs.Linear.{values, linear_of, curve_of, in_rests};
ghost use Rattle.conversion.specs.Oklab.{AtMost, IsLinear};

use color::NormalizedColor;

// Linear red, green and blue.
#[derive(Clone, Copy)]
pub(crate) struct LinearColor {
    pub(crate) r: u64,
    pub(crate) g: u64,
    pub(crate) b: u64,
    pub ghost small: { AtMost 100000000 r g b },
}

// The table, in 32 bits a value: half the stack of a call that has it. A constant array is written out anew wherever it is
// named, so a caller makes the table once and lends it.
#[derive(Drop)]
pub struct LinearTable {
    pub entries: [u32; 256],
    pub ghost table: { entries ≡ values },
}

const LINEAR: [u64; 256] = [
    0, 30353, 60705, 91058, 121411, 151763, 182116, 212469, 242822, 273174, 303527, 334654, 367651,
    402472, 439144, 477695, 518152, 560539, 604883, 651209, 699541, 749903, 802319, 856813, 913406,
    972122, 1032982, 1096009, 1161225, 1228649, 1298303, 1370208, 1444384, 1520851, 1599629,
    1680738, 1764195, 1850022, 1938236, 2028856, 2121901, 2217388, 2315337, 2415763, 2518686,
    2624122, 2732089, 2842604, 2955683, 3071344, 3189603, 3310477, 3433981, 3560131, 3688945,
    3820437, 3954624, 4091520, 4231141, 4373503, 4518620, 4666509, 4817182, 4970657, 5126946,
    5286065, 5448028, 5612849, 5780543, 5951124, 6124605, 6301002, 6480327, 6662594, 6847817,
    7036010, 7227185, 7421357, 7618538, 7818742, 8021982, 8228271, 8437621, 8650046, 8865559,
    9084171, 9305896, 9530747, 9758735, 9989873, 10224173, 10461648, 10702310, 10946171, 11193243,
    11443537, 11697067, 11953843, 12213877, 12477182, 12743768, 13013648, 13286832, 13563333,
    13843162, 14126329, 14412847, 14702727, 14995979, 15292615, 15592646, 15896084, 16202938,
    16513219, 16826940, 17144110, 17464740, 17788842, 18116424, 18447499, 18782077, 19120168,
    19461783, 19806932, 20155625, 20507874, 20863687, 21223076, 21586050, 21952620, 22322796,
    22696587, 23074005, 23455058, 23839757, 24228112, 24620133, 25015828, 25415209, 25818285,
    26225066, 26635560, 27049779, 27467731, 27889426, 28314874, 28744084, 29177065, 29613827,
    30054379, 30498731, 30946892, 31398871, 31854678, 32314321, 32777810, 33245154, 33716362,
    34191442, 34670406, 35153260, 35640014, 36130678, 36625260, 37123768, 37626212, 38132601,
    38642943, 39157248, 39675523, 40197778, 40724021, 41254261, 41788507, 42326767, 42869050,
    43415364, 43965717, 44520119, 45078578, 45641102, 46207700, 46778380, 47353150, 47932018,
    48514994, 49102085, 49693300, 50288646, 50888132, 51491767, 52099557, 52711513, 53327640,
    53947949, 54572446, 55201140, 55834039, 56471151, 57112483, 57758044, 58407842, 59061884,
    59720179, 60382734, 61049557, 61720656, 62396039, 63075714, 63759687, 64447968, 65140564,
    65837482, 66538730, 67244316, 67954247, 68668531, 69387176, 70110189, 70837578, 71569350,
    72305513, 73046074, 73791041, 74540421, 75294222, 76052450, 76815115, 77582222, 78353779,
    79129794, 79910274, 80695226, 81484657, 82278575, 83076988, 83879901, 84687323, 85499261,
    86315721, 87136712, 87962240, 88792312, 89626935, 90466117, 91309865, 92158186, 93011086,
    93868573, 94730654, 95597335, 96468625, 97344529, 98225055, 99110210, 100000000,
];

// Value k in 32 bits, in which each has room.
fn narrow(all: &[u64; 256], k: usize) -> u32
    requires { (all.now ≡ values) × (k < 256) }
    ensures { result ≡ linear_of k }
{
    all[k] as u32
}

// The values in 32 bits each.
fn narrowed(all: &[u64; 256]) -> [u32; 256]
    requires { all.now ≡ values }
    ensures { result ≡ values }
{
    let mut entries = [0; 256];
    for k in 0..256 {
        entries[k] = narrow(all, k);
    }
    entries
}

pub fn linear_table() -> LinearTable
    ensures { result.entries ≡ values }
{
    let all = LINEAR;
    LinearTable {
        entries: narrowed(&all),
    }
}

// What tells the linear value of each byte, and so those of a colour.
pub(crate) trait LinearValues {
    // The linear value of byte k.
    fn at(&self, k: u8) -> u64
        ensures { result ≡ linear_of k };

    fn color(&self, c: NormalizedColor) -> LinearColor
        ensures { IsLinear c result.r result.g result.b }
    {
        LinearColor {
            r: self.at(c.0.r),
            g: self.at(c.0.g),
            b: self.at(c.0.b),
        }
    }
}

impl LinearValues for LinearTable {
    #[tactic(auto, using(crate::proofs::LinearLaws::entry))]
    fn at(&self, k: u8) -> u64 {
        self.entries[k as usize] as u64
    }
}

// A curve in whole numbers close below the linear values: what it leaves of a value, the rest, takes 16 bits. No polynomial of
// a smaller degree comes as close at all 256 bytes.
fn curve(k: u8) -> u64
    ensures { result ≡ curve_of k }
{
    let x = k as u64;
    x * (1210000000 + x * (43500000 + x * (345000 - x * (800 - x)))) / 65536
}

// The rests of all bytes, two bytes each, the lower first.
#[derive(Clone, Copy)]
struct Rests<'a> {
    bytes: &'a [u8; 512],
    ghost of_values: { T (in_rests bytes.now 0 values) },
}

impl<'a> LinearValues for Rests<'a> {
    fn at(&self, k: u8) -> u64 {
        let i = 2 * k as usize;
        curve(k) + u16::from_le_bytes([self.bytes[i], self.bytes[i + 1]]) as u64
    }
}

// The linear values of a colour alone. Constants are written out in the frame wherever they are named, so this names the
// rests and not the table: 512 bytes of the frame, half of what four bytes to a value take, in 32 stores of 16 bytes.
impl From<NormalizedColor> for LinearColor {
    ghost from_gives = { λ c x. IsLinear c x.r x.g x.b };

    fn from(c: NormalizedColor) -> LinearColor {
        let rests = Rests {
            bytes: b"\x00\x00\xd5\x2b\x5a\x52\x72\x73\xfd\x8e\xdb\xa4\xf1\xb4\x1f\xbf\x47\xc3\x4b\xc1\x11\xb9\x7f\xad\xc1\xa2\x8e\x98\xe4\x8e\xc3\x85\
\x2a\x7d\x17\x75\x89\x6d\x7f\x66\xf6\x5f\xec\x59\x5f\x54\x4d\x4f\xb2\x4a\x8d\x46\xd9\x42\x95\x3f\xbf\x3c\x51\x3a\x49\x38\xa5\x36\
\x61\x35\x79\x34\xec\x33\xb5\x33\xcf\x33\x3b\x34\xf2\x34\xf3\x35\x3a\x37\xc3\x38\x8c\x3a\x90\x3c\xce\x3e\x42\x41\xe8\x43\xbf\x46\
\xc1\x49\xed\x4c\x40\x50\xb7\x53\x4e\x57\x03\x5b\xd4\x5e\xbd\x62\xbc\x66\xce\x6a\xf1\x6e\x22\x73\x5f\x77\xa6\x7b\xf3\x7f\x47\x84\
\x9c\x88\xf2\x8c\x47\x91\x98\x95\xe4\x99\x29\x9e\x64\xa2\x96\xa6\xbb\xaa\xd1\xae\xd9\xb2\xd0\xb6\xb3\xba\x84\xbe\x40\xc2\xe6\xc5\
\x74\xc9\xeb\xcc\x47\xd0\x8a\xd3\xb2\xd6\xbe\xd9\xad\xdc\x7f\xdf\x32\xe2\xc7\xe4\x3d\xe7\x93\xe9\xca\xeb\xe0\xed\xd6\xef\xab\xf1\
\x5f\xf3\xf2\xf4\x63\xf6\xb4\xf7\xe3\xf8\xf1\xf9\xde\xfa\xab\xfb\x57\xfc\xe2\xfc\x4e\xfd\x9b\xfd\xc7\xfd\xd6\xfd\xc6\xfd\x99\xfd\
\x4e\xfd\xe6\xfc\x63\xfc\xc5\xfb\x0c\xfb\x3a\xfa\x4d\xf9\x4a\xf8\x2f\xf7\xfd\xf5\xb6\xf4\x5a\xf3\xea\xf1\x68\xf0\xd3\xee\x2f\xed\
\x79\xeb\xb5\xe9\xe4\xe7\x05\xe6\x1c\xe4\x27\xe2\x29\xe0\x24\xde\x17\xdc\x03\xda\xeb\xd7\xcf\xd5\xb0\xd3\x8f\xd1\x6f\xcf\x4f\xcd\
\x31\xcb\x16\xc9\xff\xc6\xed\xc4\xe1\xc2\xdc\xc0\xe0\xbe\xee\xbc\x06\xbb\x2a\xb9\x5a\xb7\x98\xb5\xe4\xb3\x40\xb2\xab\xb0\x29\xaf\
\xb7\xad\x59\xac\x0f\xab\xda\xa9\xb9\xa8\xaf\xa7\xbb\xa6\xde\xa5\x1a\xa5\x6d\xa4\xd9\xa3\x5e\xa3\xfd\xa2\xb7\xa2\x8b\xa2\x79\xa2\
\x82\xa2\xa6\xa2\xe5\xa2\x3f\xa3\xb4\xa3\x45\xa4\xf0\xa4\xb6\xa5\x95\xa6\x8f\xa7\xa3\xa8\xd0\xa9\x15\xab\x72\xac\xe7\xad\x71\xaf\
\x12\xb1\xc6\xb2\x8f\xb4\x69\xb6\x56\xb8\x52\xba\x5d\xbc\x75\xbe\x98\xc0\xc6\xc2\xfc\xc4\x38\xc7\x78\xc9\xbb\xcb\xfe\xcd\x40\xd0\
\x7d\xd2\xb2\xd4\xdf\xd6\x01\xd9\x12\xdb\x12\xdd\xfe\xde\xd1\xe0\x89\xe2\x23\xe4\x9b\xe5\xed\xe6\x16\xe8\x12\xe9\xdc\xe9\x71\xea\
\xcc\xea\xe9\xea\xc3\xea\x57\xea\x9e\xe9\x94\xe8\x34\xe7\x78\xe5\x5c\xe3\xd9\xe0\xea\xdd\x8a\xda\xb1\xd6\x5b\xd2\x81\xcd\x1b\xc8\
\x25\xc2\x96\xbb\x68\xb4\x93\xac\x12\xa4\xdb\x9a\xe9\x90\x31\x86\xad\x7a\x55\x6e\x20\x61\x06\x53\xfe\x43\xff\x33\x01\x23\xf9\x10",
        };
        rests.color(c)
    }
}
