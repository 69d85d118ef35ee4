// The options that each command has.
ghost use Rattle.look_words.specs.Options.{check_option, option_kind, rehearse_option, sift_option, story_option, timeline_option, trace_option, why_option};
ghost use Rattle.std.specs.Prelude.{◌≡◌};

/// An option that has a value: a file, or a number.
#[derive(Clone, Copy)]
pub(crate) enum Valued {
    Cash,
    Script,
    Rejects,
    Picture,
    Threads,
    Turns,
}

/// An option that has none.
#[derive(Clone, Copy)]
pub(crate) enum Flag {
    Svg,
    Json,
    Only,
    All,
    Check,
}

/// What an option is.
#[derive(Clone, Copy)]
pub(crate) enum OptionKind {
    WithValue(Valued),
    Alone(Flag),
}

#[tactic(auto, unfolding(crate::specs::Options::check_option))]
fn check_option(name: &str) -> Option<OptionKind>
    ensures { result ≡ check_option name.now }
{
    match name {
        "cash" => Some(OptionKind::WithValue(Valued::Cash)),
        "script" => Some(OptionKind::WithValue(Valued::Script)),
        "all" => Some(OptionKind::Alone(Flag::All)),
        "json" => Some(OptionKind::Alone(Flag::Json)),
        _ => None,
    }
}

#[tactic(auto, unfolding(crate::specs::Options::story_option))]
fn story_option(name: &str) -> Option<OptionKind>
    ensures { result ≡ story_option name.now }
{
    match name {
        "cash" => Some(OptionKind::WithValue(Valued::Cash)),
        "script" => Some(OptionKind::WithValue(Valued::Script)),
        "json" => Some(OptionKind::Alone(Flag::Json)),
        _ => None,
    }
}

#[tactic(auto, unfolding(crate::specs::Options::timeline_option))]
fn timeline_option(name: &str) -> Option<OptionKind>
    ensures { result ≡ timeline_option name.now }
{
    match name {
        "cash" => Some(OptionKind::WithValue(Valued::Cash)),
        "svg" => Some(OptionKind::Alone(Flag::Svg)),
        "json" => Some(OptionKind::Alone(Flag::Json)),
        "only" => Some(OptionKind::Alone(Flag::Only)),
        _ => None,
    }
}

#[tactic(auto, unfolding(crate::specs::Options::why_option))]
fn why_option(name: &str) -> Option<OptionKind>
    ensures { result ≡ why_option name.now }
{
    match name {
        "cash" => Some(OptionKind::WithValue(Valued::Cash)),
        "all" => Some(OptionKind::Alone(Flag::All)),
        "check" => Some(OptionKind::Alone(Flag::Check)),
        _ => None,
    }
}

#[tactic(auto, unfolding(crate::specs::Options::trace_option))]
fn trace_option(name: &str) -> Option<OptionKind>
    ensures { result ≡ trace_option name.now }
{
    match name {
        "cash" => Some(OptionKind::WithValue(Valued::Cash)),
        _ => None,
    }
}

#[tactic(auto, unfolding(crate::specs::Options::sift_option))]
fn sift_option(name: &str) -> Option<OptionKind>
    ensures { result ≡ sift_option name.now }
{
    match name {
        "rejects" => Some(OptionKind::WithValue(Valued::Rejects)),
        _ => None,
    }
}

#[tactic(auto, unfolding(crate::specs::Options::rehearse_option))]
fn rehearse_option(name: &str) -> Option<OptionKind>
    ensures { result ≡ rehearse_option name.now }
{
    match name {
        "cash" => Some(OptionKind::WithValue(Valued::Cash)),
        "threads" => Some(OptionKind::WithValue(Valued::Threads)),
        "turns" => Some(OptionKind::WithValue(Valued::Turns)),
        "svg" => Some(OptionKind::WithValue(Valued::Picture)),
        _ => None,
    }
}

/// What an option of this name is of a command of that one, if it has such an option.
#[tactic(auto, unfolding(crate::specs::Options::option_kind))]
pub(crate) fn option_kind(command: &str, name: &str) -> Option<OptionKind>
    ensures { result ≡ option_kind command.now name.now }
{
    match command {
        "check" => check_option(name),
        "story" => story_option(name),
        "timeline" => timeline_option(name),
        "rehearse" => rehearse_option(name),
        "why" => why_option(name),
        "trace" => trace_option(name),
        "sift" => sift_option(name),
        _ => None,
    }
}
