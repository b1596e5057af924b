// The first words of setting lines.
ghost use Rattle.std.specs.Prelude.{◌≡◌};
ghost use Rattle.xp_settings.specs.Words.{setting_word_in};

/// The first word of a setting line.
#[derive(Clone, Copy)]
pub enum SettingWord {
    Budget,
    Check,
    Minor,
    Warm,
    Fault,
    Stop,
    Restart,
    Poke,
}

/// The first word of a setting line that this is.
#[tactic(auto, unfolding(crate::specs::Words::setting_word_in))]
pub fn setting_word(word: &[u8]) -> Option<SettingWord>
    ensures { result ≡ setting_word_in word.now }
{
    if word == b"budget".as_slice() {
        Some(SettingWord::Budget)
    } else if word == b"check".as_slice() {
        Some(SettingWord::Check)
    } else if word == b"minor".as_slice() {
        Some(SettingWord::Minor)
    } else if word == b"warm".as_slice() {
        Some(SettingWord::Warm)
    } else if word == b"fault".as_slice() {
        Some(SettingWord::Fault)
    } else if word == b"stop".as_slice() {
        Some(SettingWord::Stop)
    } else if word == b"restart".as_slice() {
        Some(SettingWord::Restart)
    } else if word == b"poke".as_slice() {
        Some(SettingWord::Poke)
    } else {
        None
    }
}
