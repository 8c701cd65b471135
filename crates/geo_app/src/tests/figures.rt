//! The figures of the tests, and what the program says of them.

/// A line `@ NAME` begins a text.
const FIGURES: &str = "\
@ bend
point A 0 0
point B 1 0
point C 0 1
join l A B
join m A C
meet X l m
@ bend shown
A point 0 0 1
B point 1 0 1
C point 0 1 1
l line 0 1 0
m line 1 0 0
X point 0 0 1
@ desargues
fixpoint O 0 0 1
point A 1 0
point B 0 1
point C -1 -1
along D O A 1
along E O B 2
along F O C 3
join ab A B
join de D E
meet X ab de
join bc B C
join ef E F
meet Y bc ef
join ca C A
join fd F D
meet Z ca fd
claim collinear X Y Z
@ desargues proved
proved collinear A B X
proved collinear D E X
proved collinear B C Y
proved collinear E F Y
proved collinear A C Z
proved collinear D F Z
proved collinear X Y Z
@ pappus from C on
along C A B 1
point D 0 -1
point E 3 -2
along F D E 2
join ae A E
join bd B D
meet X ae bd
join af A F
join cd C D
meet Y af cd
join bf B F
join ce C E
meet Z bf ce
claim collinear X Y Z
@ two points drawn
<svg xmlns=\"http://www.w3.org/2000/svg\" viewBox=\"-500 -500 1000 1000\">
<circle id=\"A\" cx=\"50\" cy=\"0\" r=\"4\"/>
<circle id=\"B\" cx=\"0\" cy=\"-50\" r=\"4\"/>
<line id=\"ab\" x1=\"-500\" y1=\"-550\" x2=\"500\" y2=\"450\" stroke=\"black\"/>
</svg>
@ their lines drawn
<svg xmlns=\"http://www.w3.org/2000/svg\" viewBox=\"-500 -500 1000 1000\">
<line id=\"A\" x1=\"-50\" y1=\"500\" x2=\"-50\" y2=\"-500\" stroke=\"black\"/>
<line id=\"B\" x1=\"-500\" y1=\"50\" x2=\"500\" y2=\"50\" stroke=\"black\"/>
<circle id=\"ab\" cx=\"-50\" cy=\"50\" r=\"4\"/>
</svg>
@ nothing drawn
<svg xmlns=\"http://www.w3.org/2000/svg\" viewBox=\"-500 -500 1000 1000\">
</svg>
";

/// The lines of a figure, or of what is said of it.
pub fn figure(name: &str) -> &str {
    for text in FIGURES.split("@ ") {
        if let Some((head, lines)) = text.split_once('\n') {
            if head == name {
                return lines;
            }
        }
    }
    ""
}
