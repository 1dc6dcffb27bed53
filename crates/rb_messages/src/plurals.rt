//! The plural categories of languages. tools/plural-categories writes this file from the bundle `plurals`
//! of ICU's data (ICU 72.1.0.0), which has the rules of Unicode CLDR.

/// Locales of the same categories: the bits of all, those of integers below a million, and the names with
/// spaces between them.
pub(crate) type Row = (u8, u8, &'static str);

/// The categories of numbers, as in `{n, plural, ..}`.
pub(crate) const CARDINAL: [Row; 12] = [
    (
        0b100000,
        0b100000,
        "bm bo dz hnj id ig ii in ja jbo jv jw kde kea km ko lkt lo ms my nqo osa root sah ses \
        sg su th to tpi vi wo yo yue zh",
    ),
    (
        0b100010,
        0b100010,
        "af ak am an as asa ast az bal bem bez bg bho bn brx ce ceb cgg chr ckb da de doi dv \
        ee el en eo et eu fa ff fi fil fo fur fy gl gsw gu guw ha haw hi hu hy ia io is jgo \
        ji jmc ka kab kaj kcg kk kkj kl kn ks ksb ku ky lb lg lij ln mas mg mgo mk ml mn mr \
        nah nb nd ne nl nn nnh no nr nso ny nyn om or os pa pap pcm ps rm rof rwk saq sc scn \
        sd sdh seh si sn so sq ss ssy st sv sw syr ta te teo ti tig tk tl tn tr ts tzm ug ur \
        uz ve vo vun wa wae xh xog yi zu",
    ),
    (0b100011, 0b100011, "ksh lag lv prg"),
    (
        0b100110,
        0b100110,
        "he iu iw naq sat se sma smi smj smn sms",
    ),
    (0b101010, 0b101010, "bs hr mo ro sh shi sr"),
    (0b101110, 0b101110, "dsb gd hsb sl"),
    (0b110010, 0b100010, "ca es fr it pt pt_PT vec"),
    (0b111010, 0b011010, "be pl ru uk"),
    (0b111010, 0b101010, "cs lt sk"),
    (0b111110, 0b101110, "br gv"),
    (0b111110, 0b111110, "ga mt"),
    (0b111111, 0b111111, "ar ars cy kw"),
];

/// The categories of ranks, as in `{n, selectordinal, ..}`.
pub(crate) const ORDINAL: [Row; 10] = [
    (
        0b100000,
        0b100000,
        "af am an ar ast bg bs ce cs da de dsb el es et eu fa fi fy gl gsw he hr hsb ia id in \
        is iw ja km kn ko ky lt lv ml mn my nb nl no pa pl prg ps pt root ru sd sh si sk sl \
        sr sw ta te th tpi tr ur uz yue zh zu",
    ),
    (
        0b100010,
        0b100010,
        "bal fil fr ga hu hy lo mo ms ne ro sv tl vi",
    ),
    (0b101000, 0b101000, "be tk uk"),
    (0b101110, 0b101110, "ca en gd mr"),
    (0b110000, 0b110000, "it kk lij sc scn vec"),
    (0b110010, 0b110010, "ka kw sq"),
    (0b110110, 0b110110, "mk"),
    (0b111010, 0b111010, "az"),
    (0b111110, 0b111110, "as bn gu hi or"),
    (0b111111, 0b111111, "cy"),
];
