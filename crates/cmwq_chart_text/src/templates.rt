//! What is written, with a hole for each number.

use cmwq_chart::SignKind;

/// The head: the height twice, the style, the page and its height, from which entry up to which, and the legend.
pub(crate) const HEAD: &str =
    "<svg xmlns=\"http://www.w3.org/2000/svg\" width=\"1200\" height=\"$\" viewBox=\"0 0 1200 $\" role=\"img\"><style>\
    svg{color:black;font:11px sans-serif}.page{fill:white}text{fill:currentColor}.title{font-size:14px}\
    .name,.entry{opacity:.8}.name{text-anchor:end}.entry{text-anchor:middle}\
    .guide,.grid{stroke:currentColor;stroke-opacity:.15}.run,.sleep,.wait{stroke:currentColor;stroke-width:.7}\
    .sleep{fill:url(#hatch)}.wait{fill:currentColor;fill-opacity:.18}\
    .mark{stroke:currentColor;stroke-width:.8;pointer-events:all}\
    .item{fill:black;font-size:10px;font-weight:bold;stroke:white;stroke-opacity:.7;stroke-width:2.5px;\
    paint-order:stroke;pointer-events:none}.k0{fill:rgb(143,184,222)}.k1{fill:rgb(250,190,120)}\
    .k2{fill:rgb(150,205,140)}.k3{fill:rgb(240,150,145)}.k4{fill:rgb(150,210,205)}.k5{fill:rgb(205,170,205)}\
    .k6{fill:rgb(200,170,150)}.k7{fill:rgb(240,220,120)}.k8{fill:rgb(255,190,200)}.k9{fill:rgb(190,190,190)}\
    .k10,.delayed,.changed,.waiting{fill:none}.done,.waits{fill:currentColor}.cancelled{stroke-width:2}\
    .tick,.changed,.refused{stroke-width:1.4}.refused{opacity:.7}.label{font-size:8px;pointer-events:none}\
    .open{fill:rgb(196,208,222)}.active{fill:rgb(110,145,185)}\
    .width{fill:none;stroke:rgb(205,60,60);stroke-width:1.5;stroke-dasharray:3 2}.above{stroke-dasharray:1 3}\
    @media(prefers-color-scheme:dark){svg{color:rgb(230,230,230)}.page{fill:rgb(27,29,33)}\
    .item{fill:white;stroke:black}.k0{fill:rgb(62,100,137)}.k1{fill:rgb(150,95,35)}.k2{fill:rgb(62,112,55)}\
    .k3{fill:rgb(150,65,62)}.k4{fill:rgb(50,115,110)}.k5{fill:rgb(115,80,115)}.k6{fill:rgb(112,84,66)}\
    .k7{fill:rgb(130,112,25)}.k8{fill:rgb(155,90,102)}.k9{fill:rgb(100,100,100)}.delayed,.changed{fill:none}\
    .waits{fill:currentColor}.open{fill:rgb(72,84,100)}.active{fill:rgb(86,118,156)}.width{stroke:rgb(235,110,110)}}\
    </style><defs><pattern id=\"hatch\" width=\"6\" height=\"6\" patternUnits=\"userSpaceOnUse\" \
    patternTransform=\"rotate(45)\"><path d=\"M0 0v6\" stroke=\"currentColor\" stroke-width=\"2\" \
    stroke-opacity=\".5\"/></pattern></defs>\n\
    <rect class=\"page\" width=\"1200\" height=\"$\"/>\n\
    <text class=\"title\" x=\"12\" y=\"26\">Entries from $ up to $: what each caller did, and its waits below; \
    a bar for each run, hatched where it sleeps, and what its worker did below</text>\n\
    <text x=\"12\" y=\"44\">Below, for each queue on each CPU: how many are open (pale), how many of them are active \
    (dark), and the width (dashed, or dotted if it is above the row)</text>\n\
    <path class=\"queued mark k1\" d=\"M18 58m-3 -4h6l-3 8z\"/><text x=\"27\" y=\"62\">queued</text>\
    <path class=\"delayed mark\" d=\"M81 58m0 -4l3 4l-3 4l-3 -4z\"/><text x=\"90\" y=\"62\">delayed</text>\
    <path class=\"fired mark k1\" d=\"M150 58m0 -4l3 4l-3 4l-3 -4z\"/><text x=\"159\" y=\"62\">fired</text>\
    <path class=\"cancelled mark\" d=\"M208 58m-3 -3l6 6m0 -6l-6 6\"/><text x=\"217\" y=\"62\">cancelled</text>\
    <path class=\"refused mark\" d=\"M289 58m-1.5 0a1.5 1.5 0 1 0 3 0a1.5 1.5 0 1 0 -3 0\"/>\
    <text x=\"298\" y=\"62\">refused or nothing to do</text>\
    <path class=\"changed mark\" d=\"M457 58m-3 -3h6v6h-6z\"/>\
    <text x=\"466\" y=\"62\">width, freeze, thaw or retire</text>\
    <path class=\"tick mark\" d=\"M654 58m0 -7v14\"/><text x=\"663\" y=\"62\">tick</text>\
    <path class=\"waits mark\" d=\"M706 58m-3 -4l6 4l-6 4z\"/><text x=\"715\" y=\"62\">begins to wait</text>\
    <path class=\"waiting mark\" d=\"M816 58m-3 0a3 3 0 1 0 6 0a3 3 0 1 0 -6 0\"/>\
    <text x=\"825\" y=\"62\">still waits</text>\
    <path class=\"done mark\" d=\"M908 58m-3 0a3 3 0 1 0 6 0a3 3 0 1 0 -6 0\"/>\
    <text x=\"917\" y=\"62\">has waited</text>\n";

pub(crate) const END: &str = "</svg>\n";

/// The names of rows, each with a line through the row, and of a queue on a CPU with what its row is as high as.
pub(crate) const CALLER: &str =
    "<text class=\"name\" x=\"92\" y=\"$\">c$</text><path class=\"guide\" d=\"M100 $h1080\"/>\n";

pub(crate) const WORKER: &str =
    "<text class=\"name\" x=\"92\" y=\"$\">w$~$</text><path class=\"guide\" d=\"M100 $h1080\"/>\n";

pub(crate) const PLACE: &str = "<text class=\"name\" x=\"92\" y=\"$\">q$ CPU $</text>\
    <text class=\"name\" x=\"92\" y=\"$\">0 to $</text><path class=\"guide\" d=\"M100 $h1080\"/>\n";

pub(crate) const NUMBER: &str =
    "<path class=\"grid\" d=\"M$ $v$\"/><text class=\"entry\" x=\"$\" y=\"$\">$</text>\n";

/// Runs and waits that have ended, and those that go on.
pub(crate) const RUN: &str =
    "<rect class=\"run k$\" data-item=\"$\" data-queueing=\"$\" data-worker=\"w$~$\" \
    x=\"$\" y=\"$\" width=\"$\" height=\"14\"><title>item $, queueing $: entries $ to $</title></rect>\n";

pub(crate) const RUN_ON: &str =
    "<rect class=\"run k$\" data-item=\"$\" data-queueing=\"$\" data-worker=\"w$~$\" \
    x=\"$\" y=\"$\" width=\"$\" height=\"14\"><title>item $, queueing $: entries $ to $, not finished</title></rect>\n";

pub(crate) const WAIT: &str = "<rect class=\"wait\" data-caller=\"$\" data-ticket=\"$\" \
    x=\"$\" y=\"$\" width=\"$\" height=\"6\"><title>c$ waits, ticket $: entries $ to $</title></rect>\n";

pub(crate) const WAIT_ON: &str = "<rect class=\"wait\" data-caller=\"$\" data-ticket=\"$\" \
    x=\"$\" y=\"$\" width=\"$\" height=\"6\"><title>c$ waits, ticket $: entries $ to $, not ended</title></rect>\n";

pub(crate) const SLEEP: &str = "<rect class=\"sleep\" x=\"$\" y=\"$\" width=\"$\" height=\"14\">\
    <title>asleep: entries $ to $</title></rect>\n";

pub(crate) const LEVEL: &str = "<g class=\"level\" data-queue=\"$\" data-cpu=\"$\">\
    <title>$ open, $ active, width $: entries $ to $</title>\
    <rect class=\"open\" x=\"$\" y=\"$\" width=\"$\" height=\"$\"/>\
    <rect class=\"active\" x=\"$\" y=\"$\" width=\"$\" height=\"$\"/><path class=\"width\" d=\"M$ $h$\"/></g>\n";

/// A level whose width is more than its row is as high as.
pub(crate) const LEVEL_ABOVE: &str = "<g class=\"level\" data-queue=\"$\" data-cpu=\"$\">\
    <title>$ open, $ active, width $: entries $ to $</title>\
    <rect class=\"open\" x=\"$\" y=\"$\" width=\"$\" height=\"$\"/>\
    <rect class=\"active\" x=\"$\" y=\"$\" width=\"$\" height=\"$\"/>\
    <path class=\"width above\" d=\"M$ $h$\"/></g>\n";

/// The items of runs and of marks.
pub(crate) const CAPTION: &str = "<text class=\"item\" x=\"$\" y=\"$\">$</text>\n";

pub(crate) const LABEL: &str = "<text class=\"label\" x=\"$\" y=\"$\">$</text>\n";

/// Marks, each up to its tooltip, and what stands after that. The end of a wait that was asked for is a ring while the
/// wait goes on, and a dot where it is done.
pub(crate) const QUEUED: &str = "<path class=\"mark queued k$\" d=\"M$ $m-3 -4h6l-3 8z\"><title>";

pub(crate) const DELAYED: &str =
    "<path class=\"mark delayed k$\" d=\"M$ $m0 -4l3 4l-3 4l-3 -4z\"><title>";

pub(crate) const FIRED: &str =
    "<path class=\"mark fired k$\" d=\"M$ $m0 -4l3 4l-3 4l-3 -4z\"><title>";

pub(crate) const CANCELLED: &str =
    "<path class=\"mark cancelled k$\" d=\"M$ $m-3 -3l6 6m0 -6l-6 6\"><title>";

pub(crate) const WAITS: &str = "<path class=\"mark waits k$\" d=\"M$ $m-3 -4l6 4l-6 4z\"><title>";

pub(crate) const TICK: &str = "<path class=\"mark tick k$\" d=\"M$ $m0 -7v14\"><title>";

pub(crate) const CHANGED: &str = "<path class=\"mark changed k$\" d=\"M$ $m-3 -3h6v6h-6z\"><title>";

pub(crate) const REFUSED: &str = "<path class=\"mark refused k$\" \
    d=\"M$ $m-1.5 0a1.5 1.5 0 1 0 3 0a1.5 1.5 0 1 0 -3 0\"><title>";

pub(crate) const DONE: &str =
    "<path class=\"mark done\" d=\"M$ $m-3 0a3 3 0 1 0 6 0a3 3 0 1 0 -6 0\"><title>";

pub(crate) const WAITING: &str =
    "<path class=\"mark waiting\" d=\"M$ $m-3 0a3 3 0 1 0 6 0a3 3 0 1 0 -6 0\"><title>";

pub(crate) const MARK_END: &str = "</title></path>\n";
