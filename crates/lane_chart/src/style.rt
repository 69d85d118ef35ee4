// The colours of the page.
ghost use Rattle.lane_chart.specs.SvgText.{style};
ghost use Rattle.std.specs.Prelude.{◌≡◌};

// Colours that the colour-blind tell apart, in a light scheme and a dark one, by the reader's setting.
#[tactic(auto, unfolding(crate::specs::SvgText::style))]
pub(crate) fn style() -> &'static str
    ensures { result.now ≡ style }
{
    "<style>text{font:12px system-ui,'Segoe UI',Helvetica,Arial,sans-serif;fill:#222}.title{font-size:15px;font-weight:600}.name{text-anchor:end}.tick{text-anchor:middle;fill:#666}.page{fill:#fff}.grid{stroke:#ddd}.strong{fill:#0072b2}.plain{fill:#56b4e9}.weak{fill:#e69f00}.absent{fill:#999}.active{fill:#009e73}.idle{fill:#bbb}.step{fill:none;stroke:#009e73;stroke-width:2}.alarm,.turn,.note{stroke-width:2}.alarm{fill:#c43e00;stroke:#c43e00}.turn{fill:#222;stroke:#222}.note{fill:#7d4a9a;stroke:#7d4a9a}g>path{fill:none}g>circle{stroke:none}.alarm text,.turn text,.note text{font-size:10px;font-weight:700;text-anchor:middle;fill:#fff;stroke:none}.name.close{font-size:9px}.alarm .close,.turn .close,.note .close{font-size:7px}@media(prefers-color-scheme:dark){text{fill:#ddd}.tick{fill:#999}.page{fill:#15181c}.grid{stroke:#333}.plain{fill:#7cc7f2}.strong{fill:#2f96d6}.absent{fill:#777}.idle{fill:#555}.active{fill:#1fbf94}.step{stroke:#1fbf94}.alarm{fill:#ff6a2b;stroke:#ff6a2b}.turn{fill:#eee;stroke:#eee}.note{fill:#c79be0;stroke:#c79be0}.alarm text,.turn text,.note text{fill:#111}}</style>\n"
}
