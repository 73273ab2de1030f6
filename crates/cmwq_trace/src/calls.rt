//! The events of calls, by what they did.
ghost use Rattle.std.specs.Prelude.{◌≡◌};
ghost use Rattle.cmwq_trace.specs.Calls as spec;

use cmwq_chart::SignKind;

const QUEUED: &str = ",\n{\"args\":{\"entry\":$},\"cat\":\"call\",\"dur\":1,\
    \"name\":\"queued\",\"ph\":\"X\",\"pid\":2,\"tid\":$,\"ts\":$}";

const DELAYED: &str = ",\n{\"args\":{\"entry\":$},\"cat\":\"call\",\"dur\":1,\
    \"name\":\"delayed\",\"ph\":\"X\",\"pid\":2,\"tid\":$,\"ts\":$}";

const FIRED: &str = ",\n{\"args\":{\"entry\":$},\"cat\":\"call\",\"dur\":1,\
    \"name\":\"fired\",\"ph\":\"X\",\"pid\":2,\"tid\":$,\"ts\":$}";

const CANCELLED: &str = ",\n{\"args\":{\"entry\":$},\"cat\":\"call\",\"dur\":1,\
    \"name\":\"cancelled\",\"ph\":\"X\",\"pid\":2,\"tid\":$,\"ts\":$}";

const WAITS: &str = ",\n{\"args\":{\"entry\":$},\"cat\":\"call\",\"dur\":1,\
    \"name\":\"waits\",\"ph\":\"X\",\"pid\":2,\"tid\":$,\"ts\":$}";

const TICKS: &str = ",\n{\"args\":{\"entry\":$},\"cat\":\"call\",\"dur\":1,\
    \"name\":\"ticks\",\"ph\":\"X\",\"pid\":2,\"tid\":$,\"ts\":$}";

const CHANGES: &str = ",\n{\"args\":{\"entry\":$},\"cat\":\"call\",\"dur\":1,\
    \"name\":\"changes\",\"ph\":\"X\",\"pid\":2,\"tid\":$,\"ts\":$}";

const REFUSED: &str = ",\n{\"args\":{\"entry\":$},\"cat\":\"call\",\"dur\":1,\
    \"name\":\"refused\",\"ph\":\"X\",\"pid\":2,\"tid\":$,\"ts\":$}";

const QUEUED_OF: &str = ",\n{\"args\":{\"entry\":$,\"item\":$},\"cat\":\"call\",\"dur\":1,\
    \"name\":\"queued item $\",\"ph\":\"X\",\"pid\":2,\"tid\":$,\"ts\":$}";

const DELAYED_OF: &str = ",\n{\"args\":{\"entry\":$,\"item\":$},\"cat\":\"call\",\"dur\":1,\
    \"name\":\"delayed item $\",\"ph\":\"X\",\"pid\":2,\"tid\":$,\"ts\":$}";

const FIRED_OF: &str = ",\n{\"args\":{\"entry\":$,\"item\":$},\"cat\":\"call\",\"dur\":1,\
    \"name\":\"fired item $\",\"ph\":\"X\",\"pid\":2,\"tid\":$,\"ts\":$}";

const CANCELLED_OF: &str = ",\n{\"args\":{\"entry\":$,\"item\":$},\"cat\":\"call\",\"dur\":1,\
    \"name\":\"cancelled item $\",\"ph\":\"X\",\"pid\":2,\"tid\":$,\"ts\":$}";

const WAITS_OF: &str = ",\n{\"args\":{\"entry\":$,\"item\":$},\"cat\":\"call\",\"dur\":1,\
    \"name\":\"waits for item $\",\"ph\":\"X\",\"pid\":2,\"tid\":$,\"ts\":$}";

const TICKS_OF: &str = ",\n{\"args\":{\"entry\":$,\"item\":$},\"cat\":\"call\",\"dur\":1,\
    \"name\":\"ticks, item $\",\"ph\":\"X\",\"pid\":2,\"tid\":$,\"ts\":$}";

const CHANGES_OF: &str = ",\n{\"args\":{\"entry\":$,\"item\":$},\"cat\":\"call\",\"dur\":1,\
    \"name\":\"changes, item $\",\"ph\":\"X\",\"pid\":2,\"tid\":$,\"ts\":$}";

const REFUSED_OF: &str = ",\n{\"args\":{\"entry\":$,\"item\":$},\"cat\":\"call\",\"dur\":1,\
    \"name\":\"refused, item $\",\"ph\":\"X\",\"pid\":2,\"tid\":$,\"ts\":$}";

/// What the template of a call of no item is.
fn template_alone(kind: SignKind) -> &'static str
    ensures { result.now ≡ spec.template_alone kind }
{
    match kind {
        SignKind::Queued => QUEUED,
        SignKind::Delayed => DELAYED,
        SignKind::Fired => FIRED,
        SignKind::Cancelled => CANCELLED,
        SignKind::Waits => WAITS,
        SignKind::Tick => TICKS,
        SignKind::Changed => CHANGES,
        SignKind::Refused => REFUSED,
    }
}

/// What the template of a call of an item is.
fn template_of_item(kind: SignKind) -> &'static str
    ensures { result.now ≡ spec.template_of_item kind }
{
    match kind {
        SignKind::Queued => QUEUED_OF,
        SignKind::Delayed => DELAYED_OF,
        SignKind::Fired => FIRED_OF,
        SignKind::Cancelled => CANCELLED_OF,
        SignKind::Waits => WAITS_OF,
        SignKind::Tick => TICKS_OF,
        SignKind::Changed => CHANGES_OF,
        SignKind::Refused => REFUSED_OF,
    }
}

/// What the template of a call is.
pub(crate) fn call_template(kind: SignKind, item: Option<u16>) -> &'static str
    ensures { result.now ≡ spec.call_template kind item }
{
    if item.is_some() {
        template_of_item(kind)
    } else {
        template_alone(kind)
    }
}
